//! Reading and writing directives.
ghost use Rattle.std.specs.Prelude.{◌≡◌, drop, take, IfOk, Ok};
ghost use Rattle.bits.specs.Codec.{write_answer, written};
ghost use Rattle.bits.specs.Layout.{word_of};
ghost use Rattle.directive.specs.Directive.{GivesName, Within, directive_fits, directive_in, directive_word, encoded_directive, fields_for, first_directive, front, layout_for, name_for, read_directive, size_of};
ghost use Rattle.directive.specs.declared.fault.SpduFault.TheVariants.{Buffer};

use super::fault::SpduFault;
use super::link::{LinkEstablishment, link_of, link_word};
use super::packed::{Packed, write_packed};
use super::reserved::{ReservedCode, spare};
use bits::{Encode, assemble, field, is_set, word};

/// The name of a directive.
#[derive(Clone, Copy, PartialEq, Eq, Debug)]
pub enum Name {
    LinkEstablishment = 0,
    ReportRequest = 1,
    SetVr = 2,
    SourceId = 3,
}

/// A request for reports.
#[derive(Clone, Copy, PartialEq, Eq, Debug)]
pub struct ReportRequest {
    /// A report (PLCW) is wanted for physical channel 0.
    pub channel0: bool,
    /// A report is wanted for physical channel 1.
    pub channel1: bool,
    /// How many frames are to be time-tagged, 6 bits.
    pub time_tags: u8,
    /// The status report that is wanted, 5 bits.
    pub status: u8,
}

/// A directive by its fields.
#[derive(Clone, Copy, PartialEq, Eq, Debug)]
pub enum Directive {
    LinkEstablishment(LinkEstablishment),
    ReportRequest(ReportRequest),
    /// SET V(R): the frame number that the receiver is to want next.
    SetVr(u8),
    /// The spacecraft id of the sender.
    SourceId(u16),
}

impl TryFrom<u8> for Name {
    type Error = ReservedCode;

    ghost try_from_gives = { GivesName };

    fn try_from(code: u8) -> Result<Self, ReservedCode> {
        match code {
            0 => Ok(Name::LinkEstablishment),
            1 => Ok(Name::ReportRequest),
            2 => Ok(Name::SetVr),
            3 => Ok(Name::SourceId),
            _ => Err(ReservedCode),
        }
    }
}

impl Name {
    /// How many octets a directive of this name has.
    pub fn size(self) -> usize
        ensures { result ≡ size_of self }
    {
        match self {
            Name::LinkEstablishment => 12,
            Name::ReportRequest => 2,
            Name::SetVr => 2,
            Name::SourceId => 4,
        }
    }
}

impl Directive {
    /// The name of a directive.
    pub fn name(self) -> Name
        ensures { result ≡ name_for self }
    {
        match self {
            Directive::LinkEstablishment(_) => Name::LinkEstablishment,
            Directive::ReportRequest(_) => Name::ReportRequest,
            Directive::SetVr(_) => Name::SetVr,
            Directive::SourceId(_) => Name::SourceId,
        }
    }
}

// The word of a directive's fields. None where a value is wider than its field.
fn directive_word(directive: Directive) -> Option<u128>
    ensures { result ≡ word_of (layout_for directive) (fields_for directive) }
{
    match directive {
        Directive::LinkEstablishment(link) => link_word(link),
        Directive::ReportRequest(request) => assemble(&[
            (3, Name::ReportRequest as u128),
            (1, u128::from(request.channel0)),
            (1, u128::from(request.channel1)),
            (6, u128::from(request.time_tags)),
            (5, u128::from(request.status)),
        ]),
        Directive::SetVr(number) => assemble(&[
            (3, Name::SetVr as u128),
            (5, 0),
            (8, u128::from(number)),
        ]),
        Directive::SourceId(id) => assemble(&[
            (3, Name::SourceId as u128),
            (13, 0),
            (16, u128::from(id)),
        ]),
    }
}

impl Packed for Directive {
    ghost fits = { directive_fits };

    ghost word = { directive_word };

    ghost size = { λ d. size_of (name_for d) };

    ghost read = { read_directive };

    fn word(self) -> Option<u128> {
        directive_word(self)
    }

    fn size(self) -> usize {
        self.name().size()
    }

    fn read(octets: &[u8]) -> Result<Self, SpduFault> {
        read_directive(octets)
    }
}

impl Encode for Directive {
    type Fault = SpduFault;

    ghost encoded = { encoded_directive };

    ghost no_room = { Buffer };

    // A call of its own does the work, since it promises more: that reading undoes it.
    fn write(self, buffer: &mut [u8]) -> Result<usize, SpduFault> {
        write_directive(self, buffer)
    }
}

// The directive with that name and these bits.
#[inline(always)]
fn directive_of(name: Name, word: u128) -> Result<Directive, SpduFault>
    ensures { result ≡ directive_in name word }
{
    match name {
        Name::LinkEstablishment => Ok(Directive::LinkEstablishment(link_of(word)?)),
        Name::ReportRequest => Ok(Directive::ReportRequest(ReportRequest {
            channel0: is_set(word, 12),
            channel1: is_set(word, 11),
            time_tags: field(word, 5, 6) as u8,
            status: field(word, 0, 5) as u8,
        })),
        Name::SetVr => {
            spare(field(word, 8, 5), 0)?;
            Ok(Directive::SetVr(field(word, 0, 8) as u8))
        }
        Name::SourceId => {
            spare(field(word, 16, 13), 0)?;
            Ok(Directive::SourceId(field(word, 0, 16) as u16))
        }
    }
}

// The directive that these octets begin with. Inlined, so that who wants its name alone does not have the rest made.
#[inline(always)]
fn first_directive(octets: &[u8]) -> Result<Option<Directive>, SpduFault>
    ensures { result ≡ first_directive octets.now }
{
    let [first, ..] = octets else {
        return Ok(None);
    };
    let name = Name::try_from(first >> 5).map_err(|_| SpduFault::Reserved(0))?;
    let size = name.size();
    if octets.len() < size {
        return Err(SpduFault::Cut(0));
    }
    Ok(Some(directive_of(name, word(&octets[0..size]))?))
}

/// The name of the directive that starts at the octet `at` of a unit, once its fields are tried. None where the unit
/// has no octet there.
pub fn directive_at(unit: &[u8], at: usize) -> Result<Option<Name>, SpduFault>
    ensures answer { result ≡ front at (drop at unit.now) }
    ensures within { Within at unit.now result }
{
    if at >= unit.len() {
        return Ok(None);
    }
    // No `map_err`: a closure would have to say what `moved` asks.
    match first_directive(&unit[at..]) {
        Ok(directive) => Ok(directive.map(Directive::name)),
        Err(fault) => Err(fault.moved(at)),
    }
}

/// The directive that these octets are, no fewer and no more. Octets of a fault count from its first.
pub fn read_directive(octets: &[u8]) -> Result<Directive, SpduFault>
    ensures answer { result ≡ read_directive octets.now }
    ensures undone { IfOk result (λ d. encoded_directive d ≡ Ok octets.now) }
{
    let directive = first_directive(octets)?.ok_or(SpduFault::Length)?;
    if octets.len() != directive.name().size() {
        return Err(SpduFault::Length);
    }
    Ok(directive)
}

/// Puts the octets of a directive first into the buffer, and answers how many they are. The rest of the buffer stays.
pub fn write_directive(directive: Directive, buffer: &mut [u8]) -> Result<usize, SpduFault>
    ensures answer { result ≡ write_answer SpduFault.Buffer (encoded_directive directive) buffer.old }
    ensures after { buffer.new ≡ written (encoded_directive directive) buffer.old }
    ensures undone { IfOk result (λ n. read_directive (take n buffer.new) ≡ Ok directive) }
{
    write_packed(directive, buffer)
}
