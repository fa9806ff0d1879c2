//! The reader of the items of an SPDU.
ghost use Rattle.std.specs.Prelude.{◌≡◌, drop};
ghost use Rattle.spdu.specs.Item.{after_item, directive, directives, item_value, next_item, next_seen, reading};
ghost use Rattle.spdu.specs.Items.{JoinedIn, Sound, left};

use super::item::{Content, Item, open_spdu};
use directive::directive::{Name, directive_at};
use directive::fault::SpduFault;

/// The items of an SPDU that are still to come.
#[derive(Drop)]
pub struct Items<'a> {
    unit: &'a [u8],
    // What comes before any directive: the fault of the SPDU's header, or the one item of an SPDU that is not of
    // Type 5. None where directives come, or nothing more.
    first: Result<Option<Item<'a>>, SpduFault>,
    // The octet of the unit where the next directive starts.
    at: usize,
}

// A directive by its name, with its octets.
fn item_of<'a>(name: Name, octets: &'a [u8]) -> Item<'a>
    ensures { item_value result ≡ directive name octets.now }
{
    match name {
        Name::LinkEstablishment => Item::LinkEstablishment(octets),
        Name::ReportRequest => Item::ReportRequest(octets),
        Name::SetVr => Item::SetVr(octets),
        Name::SourceId => Item::SourceId(octets),
    }
}

impl<'a> Items<'a> {
    /// The items of an SPDU. A fault is told by `next` where it comes, after the items before it.
    pub fn new(unit: &'a [u8]) -> Items<'a>
        ensures items { left result ≡ reading unit.now }
        ensures joined { JoinedIn unit.now (left result) }
        ensures sound { Sound (left result) }
    {
        Items {
            unit,
            first: open_spdu(unit).map(Content::single),
            at: 1,
        }
    }

    // The directive at `at`, if there is one.
    fn next_directive(&mut self) -> Result<Option<Item<'a>>, SpduFault>
        ensures answer { next_seen result ≡ next_item (directives 0 self.old.at (drop self.old.at self.old.unit.now)) }
        ensures after { directives 0 self.new.at (drop self.new.at self.new.unit.now) ≡ after_item (directives 0 self.old.at (drop self.old.at self.old.unit.now)) }
        ensures same { self.new.first ≡ self.old.first }
    {
        let at = self.at;
        let unit = self.unit;
        let Some(name) = directive_at(unit, at)? else {
            return Ok(None);
        };
        let end = at + name.size();
        self.at = end;
        Ok(Some(item_of(name, &unit[at..end])))
    }

    /// The next item, none at the end, or the fault at which the reading stops.
    // No `Iterator`, since a fault comes again at each call: a `for` over such an iterator is not proved to end.
    pub fn next(&mut self) -> Result<Option<Item<'a>>, SpduFault>
        ensures answer { next_seen result ≡ next_item (left self.old) }
        ensures after { left self.new ≡ after_item (left self.old) }
    {
        let Some(item) = self.first? else {
            return self.next_directive();
        };
        self.first = Ok(None);
        self.at = self.unit.len();
        Ok(Some(item))
    }
}
