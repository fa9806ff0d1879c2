//! The header of a frame: its first five octets.
ghost use Rattle.std.specs.Prelude.{◌≡◌, ok_or};
ghost use Rattle.bits.specs.Layout.{cut, word_of};
ghost use Rattle.frame.specs.declared.fault.FrameFault.TheVariants as fault;
ghost use Rattle.frame.specs.Header.{allowed, bit, construction_of, header_fields, header_layout, header_of, id_of_bit, kind_of, quality_of};

use super::fault::FrameFault;
use bits::{assemble, field, is_set};
use std::fmt;

/// How a frame is delivered.
#[derive(Clone, Copy, PartialEq, Eq, Debug)]
pub enum Quality {
    /// Numbered, acknowledged by reports, sent again until it is held.
    SequenceControlled,
    /// Sent once.
    Expedited,
}

/// What the data field of a frame is for.
#[derive(Clone, Copy, PartialEq, Eq, Debug)]
pub enum Kind {
    /// A U-frame: a unit of the user's data.
    User,
    /// A P-frame: a supervisory unit of the link itself.
    Supervisory,
}

/// How the data field is made up. Binary 10 is reserved, so it has no case.
#[derive(Clone, Copy, PartialEq, Eq, Debug)]
pub enum Construction {
    Packets = 0,
    Segments = 1,
    UserOctets = 3,
}

/// Whose spacecraft id the header holds.
#[derive(Clone, Copy, PartialEq, Eq, Debug)]
pub enum IdOf {
    Source,
    Destination,
}

/// The fields of a header, but for the version and the length, which follow from the rest of the frame.
#[derive(Clone, Copy, PartialEq, Eq, Debug)]
pub struct Header {
    pub quality: Quality,
    pub kind: Kind,
    pub construction: Construction,
    /// The spacecraft id, 10 bits.
    pub id: u16,
    /// The physical channel, 1 bit.
    pub channel: u8,
    /// The port, 3 bits.
    pub port: u8,
    pub id_of: IdOf,
    /// The frame number.
    pub number: u8,
}

/// By the quality's bit in the header.
// Three like this, each with two names of its own, which a generic one would have to be given.
impl From<bool> for Quality {
    ghost from_gives = { λ set quality. quality ≡ quality_of (bit set) };

    fn from(set: bool) -> Quality {
        if set {
            Quality::Expedited
        } else {
            Quality::SequenceControlled
        }
    }
}

/// By the kind's bit in the header.
impl From<bool> for Kind {
    ghost from_gives = { λ set kind. kind ≡ kind_of (bit set) };

    fn from(set: bool) -> Kind {
        if set { Kind::Supervisory } else { Kind::User }
    }
}

/// By the bit in the header that tells whose id it holds.
impl From<bool> for IdOf {
    ghost from_gives = { λ set id_of. id_of ≡ id_of_bit (bit set) };

    fn from(set: bool) -> IdOf {
        if set { IdOf::Destination } else { IdOf::Source }
    }
}

impl TryFrom<u128> for Construction {
    type Error = FrameFault;

    ghost try_from_gives = { λ bits answer. answer ≡ ok_or (construction_of bits) fault.Construction };

    fn try_from(bits: u128) -> Result<Construction, FrameFault> {
        match bits {
            0 => Ok(Construction::Packets),
            1 => Ok(Construction::Segments),
            3 => Ok(Construction::UserOctets),
            _ => Err(FrameFault::Construction),
        }
    }
}

impl fmt::Display for Quality {
    fn fmt<W: fmt::Write>(&self, f: &mut fmt::Formatter<W>) -> fmt::Result {
        f.write_str(match self {
            Quality::SequenceControlled => "sequence-controlled",
            Quality::Expedited => "expedited",
        })
    }
}

impl fmt::Display for Kind {
    fn fmt<W: fmt::Write>(&self, f: &mut fmt::Formatter<W>) -> fmt::Result {
        f.write_str(match self {
            Kind::User => "user",
            Kind::Supervisory => "supervisory",
        })
    }
}

impl fmt::Display for Construction {
    fn fmt<W: fmt::Write>(&self, f: &mut fmt::Formatter<W>) -> fmt::Result {
        f.write_str(match self {
            Construction::Packets => "packets",
            Construction::Segments => "segments",
            Construction::UserOctets => "user octets",
        })
    }
}

impl fmt::Display for IdOf {
    fn fmt<W: fmt::Write>(&self, f: &mut fmt::Formatter<W>) -> fmt::Result {
        f.write_str(match self {
            IdOf::Source => "source",
            IdOf::Destination => "destination",
        })
    }
}

// A match and not `matches!`: it is read as a table.
/// Whether the kind allows the quality and the construction: a supervisory frame is expedited and of packets.
pub fn is_allowed(kind: Kind, quality: Quality, construction: Construction) -> bool
    ensures { result ≡ allowed kind quality construction }
{
    match (kind, quality, construction) {
        (Kind::User, _, _) => true,
        (Kind::Supervisory, Quality::Expedited, Construction::Packets) => true,
        _ => false,
    }
}

/// The header of which `word` is the five octets, if its construction is one and its kind allows it.
// No TryFrom: whether a word is a header hangs on its version and length too, which the reader of a frame tests.
pub fn header_of(word: u128) -> Option<Header>
    ensures { result ≡ header_of (cut header_layout word) }
{
    let quality = Quality::from(is_set(word, 37));
    let kind = Kind::from(is_set(word, 36));
    let construction = Construction::try_from(field(word, 34, 2)).ok()?;
    if !is_allowed(kind, quality, construction) {
        return None;
    }
    Some(Header {
        quality,
        kind,
        construction,
        id: field(word, 24, 10) as u16,
        channel: field(word, 23, 1) as u8,
        port: field(word, 20, 3) as u8,
        id_of: IdOf::from(is_set(word, 19)),
        number: field(word, 0, 8) as u8,
    })
}

/// The five octets of a header as one word, in a frame whose length field holds `last`. None where a value is wider
/// than its field.
pub fn header_word(header: Header, last: u128) -> Option<u128>
    ensures { result ≡ word_of header_layout (header_fields header last) }
{
    assemble(&[
        (2, 2),
        (1, header.quality as u128),
        (1, header.kind as u128),
        (2, header.construction as u128),
        (10, header.id as u128),
        (1, header.channel as u128),
        (3, header.port as u128),
        (1, header.id_of as u128),
        (11, last),
        (8, header.number as u128),
    ])
}
