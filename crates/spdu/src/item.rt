//! What an SPDU holds, and the items that its reader hands out.
ghost use Rattle.std.specs.Prelude.{◌≡◌};
ghost use Rattle.spdu.specs.Item.{GivesType, content_seen, content_value, directive_fields, fields_seen, item_fields, item_value, maybe_seen, opened, opens_field, single, type_of};

use super::report::{Report, read_report};
use directive::directive::{Directive, read_directive};
use directive::fault::SpduFault;
use directive::reserved::ReservedCode;

/// The types of a variable SPDU that are not reserved.
#[derive(Clone, Copy, PartialEq, Eq, Debug)]
pub enum SpduType {
    /// Directives for UHF, octets to this layer.
    Type1 = 0,
    /// Time distribution, at least one octet.
    Type2 = 1,
    /// Status reports, octets to this layer.
    Type3 = 2,
    /// Directives for S-band, end to end.
    Type5 = 4,
}

/// What an SPDU holds: a report, with both its octets, or a data field.
#[derive(Clone, Copy, PartialEq, Eq, Debug)]
pub enum Content<'a> {
    Report(&'a [u8]),
    Field(SpduType, &'a [u8]),
}

/// An item of an SPDU: each case is a kind, and holds the item's octets.
#[derive(Clone, Copy, PartialEq, Eq, Debug)]
pub enum Item<'a> {
    Report(&'a [u8]),
    Type1(&'a [u8]),
    Type2(&'a [u8]),
    Type3(&'a [u8]),
    LinkEstablishment(&'a [u8]),
    ReportRequest(&'a [u8]),
    SetVr(&'a [u8]),
    SourceId(&'a [u8]),
}

/// What an item says.
#[derive(Clone, Copy, PartialEq, Eq, Debug)]
pub enum Fields<'a> {
    Report(Report),
    Octets(&'a [u8]),
    Directive(Directive),
}

impl<'a> Content<'a> {
    // The one item of an SPDU that is not of Type 5.
    pub(crate) fn single(self) -> Option<Item<'a>>
        ensures { maybe_seen result ≡ single (content_value self.entry) }
    {
        match self {
            Content::Report(octets) => Some(Item::Report(octets)),
            Content::Field(SpduType::Type1, octets) => Some(Item::Type1(octets)),
            Content::Field(SpduType::Type2, octets) => Some(Item::Type2(octets)),
            Content::Field(SpduType::Type3, octets) => Some(Item::Type3(octets)),
            Content::Field(SpduType::Type5, _) => None,
        }
    }
}

fn directive_fields<'a>(octets: &'a [u8]) -> Result<Fields<'a>, SpduFault>
    ensures { fields_seen result ≡ directive_fields octets.now }
{
    Ok(Fields::Directive(read_directive(octets)?))
}

impl<'a> Item<'a> {
    /// The fields of an item. An item that a reader handed out is never refused.
    pub fn fields(self) -> Result<Fields<'a>, SpduFault>
        ensures { fields_seen result ≡ item_fields (item_value self.entry) }
    {
        match self {
            Item::Report(octets) => Ok(Fields::Report(read_report(octets)?)),
            Item::Type1(octets) | Item::Type2(octets) | Item::Type3(octets) => Ok(Fields::Octets(
                octets,
            )),
            Item::LinkEstablishment(octets)
            | Item::ReportRequest(octets)
            | Item::SetVr(octets)
            | Item::SourceId(octets) => directive_fields(octets),
        }
    }
}

impl TryFrom<u8> for SpduType {
    type Error = ReservedCode;

    ghost try_from_gives = { GivesType };

    fn try_from(code: u8) -> Result<Self, ReservedCode> {
        match code {
            0 => Ok(SpduType::Type1),
            1 => Ok(SpduType::Type2),
            2 => Ok(SpduType::Type3),
            4 => Ok(SpduType::Type5),
            _ => Err(ReservedCode),
        }
    }
}

// The data field of a type, if its length is the one that the header tells. Type 2 has at least one octet.
fn open_field<'a>(code: u8, told: u8, field: &'a [u8]) -> Result<Content<'a>, SpduFault>
    ensures { content_seen result ≡ opens_field (type_of code) told field.now }
{
    let kind = SpduType::try_from(code).map_err(|_| SpduFault::Kind)?;
    if usize::from(told) != field.len() || (kind == SpduType::Type2 && field.is_empty()) {
        return Err(SpduFault::Length);
    }
    Ok(Content::Field(kind, field))
}

/// What an SPDU holds, by its first octet and its length. Directives are not tried yet.
pub fn open_spdu(octets: &[u8]) -> Result<Content<'_>, SpduFault>
    ensures { content_seen result ≡ opened octets.now }
{
    let [first, field @ ..] = octets else {
        return Err(SpduFault::Length);
    };
    match first >> 6 {
        2 => {
            read_report(octets)?;
            Ok(Content::Report(octets))
        }
        3 => Err(SpduFault::Kind),
        _ => open_field(first >> 4, first & 15, field),
    }
}
