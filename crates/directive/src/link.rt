//! The link establishment directive, 96 bits.
ghost use Rattle.std.specs.Prelude.{◌≡◌};
ghost use Rattle.bits.specs.Layout.{cut, word_of};
ghost use Rattle.directive.specs.Link.{GivesCoding, GivesDuplex, GivesModulation, link_fields, link_of, link_rules};
ghost use Rattle.directive.specs.Rule.{allowed, layout};

use super::directive::Name;
use super::fault::SpduFault;
use super::rate::rate_is_allowed;
use super::reserved::{ReservedCode, spare};
use bits::{assemble, field, is_set};

/// In which directions the responder may communicate.
#[derive(Clone, Copy, PartialEq, Eq, Debug)]
pub enum Duplex {
    NoChange = 0,
    Full = 1,
    Half = 2,
    SimplexTransmit = 3,
    SimplexReceive = 4,
}

#[derive(Clone, Copy, PartialEq, Eq, Debug)]
pub enum Modulation {
    BiPhaseL = 0,
    Gmsk = 1,
}

#[derive(Clone, Copy, PartialEq, Eq, Debug)]
pub enum Coding {
    Uncoded = 0,
    Ldpc2048 = 1,
    Ldpc6144 = 5,
    Ldpc8160 = 10,
}

/// The fields of the directive, but for its name and the spares.
#[derive(Clone, Copy, PartialEq, Eq, Debug)]
pub struct LinkEstablishment {
    /// The link from caller to responder, and not the return link.
    pub forward: bool,
    /// A query, which may be negotiated, and not a demand.
    pub query: bool,
    /// The demand or the query was not accepted.
    pub rejected: bool,
    /// The remote node has no more data to send.
    pub no_more_data: bool,
    /// The token: the responder may transmit.
    pub transmit: bool,
    pub duplex: Duplex,
    /// Right-hand circular polarization, and not left-hand.
    pub right_hand: bool,
    pub non_coherent: bool,
    pub modulation: Modulation,
    /// The code of the modulation index, 3 bits.
    pub modulation_index: u8,
    pub coding: Coding,
    /// The instantaneous ratio of signal to noise.
    pub signal_to_noise: u8,
    /// The field of the symbol rate; `doubled_rate` answers the rate.
    pub symbol_rate: u16,
    /// The bits of the frequency, a binary32.
    pub frequency: u32,
}

// Each type lists its own codes, and so do names and types of SPDUs: a generic reading would still need the three tables.
impl TryFrom<u128> for Duplex {
    type Error = ReservedCode;

    ghost try_from_gives = { GivesDuplex };

    fn try_from(code: u128) -> Result<Self, ReservedCode> {
        match code {
            0 => Ok(Duplex::NoChange),
            1 => Ok(Duplex::Full),
            2 => Ok(Duplex::Half),
            3 => Ok(Duplex::SimplexTransmit),
            4 => Ok(Duplex::SimplexReceive),
            _ => Err(ReservedCode),
        }
    }
}

impl TryFrom<u128> for Modulation {
    type Error = ReservedCode;

    ghost try_from_gives = { GivesModulation };

    fn try_from(code: u128) -> Result<Self, ReservedCode> {
        match code {
            0 => Ok(Modulation::BiPhaseL),
            1 => Ok(Modulation::Gmsk),
            _ => Err(ReservedCode),
        }
    }
}

impl TryFrom<u128> for Coding {
    type Error = ReservedCode;

    ghost try_from_gives = { GivesCoding };

    fn try_from(code: u128) -> Result<Self, ReservedCode> {
        match code {
            0 => Ok(Coding::Uncoded),
            1 => Ok(Coding::Ldpc2048),
            5 => Ok(Coding::Ldpc6144),
            10 => Ok(Coding::Ldpc8160),
            _ => Err(ReservedCode),
        }
    }
}

/// The directive with these 96 bits. Octets of a fault count from its first.
#[inline(always)]
pub(crate) fn link_of(word: u128) -> Result<LinkEstablishment, SpduFault>
    ensures { let fields = cut (layout link_rules) word in result ≡ allowed link_rules fields (link_of fields) }
{
    spare(field(word, 92, 1), 0)?;
    let duplex = Duplex::try_from(field(word, 84, 3)).map_err(|_| SpduFault::Reserved(1))?;
    spare(field(word, 80, 2), 1)?;
    let modulation = Modulation::try_from(field(word, 76, 4)).map_err(|_| SpduFault::Reserved(2))?;
    spare(field(word, 72, 1), 2)?;
    let coding = Coding::try_from(field(word, 66, 6)).map_err(|_| SpduFault::Reserved(3))?;
    spare(field(word, 64, 2), 3)?;
    spare(field(word, 48, 8), 5)?;
    let symbol_rate = field(word, 32, 16) as u16;
    if !rate_is_allowed(symbol_rate) {
        return Err(SpduFault::Range(6));
    }
    let frequency = field(word, 0, 32) as u32;
    if frequency >= 0x7f80_0000 {
        return Err(SpduFault::Range(8));
    }
    Ok(LinkEstablishment {
        forward: is_set(word, 91),
        query: is_set(word, 90),
        rejected: is_set(word, 89),
        no_more_data: is_set(word, 88),
        transmit: is_set(word, 87),
        duplex,
        right_hand: is_set(word, 83),
        non_coherent: is_set(word, 82),
        modulation,
        modulation_index: field(word, 73, 3) as u8,
        coding,
        signal_to_noise: field(word, 56, 8) as u8,
        symbol_rate,
        frequency,
    })
}

/// The 96 bits of a directive. None where a value is wider than its field.
pub(crate) fn link_word(link: LinkEstablishment) -> Option<u128>
    ensures { result ≡ word_of (layout link_rules) (link_fields link) }
{
    assemble(&[
        (3, Name::LinkEstablishment as u128),
        (1, 0),
        (1, link.forward as u128),
        (1, link.query as u128),
        (1, link.rejected as u128),
        (1, link.no_more_data as u128),
        (1, link.transmit as u128),
        (3, link.duplex as u128),
        (1, link.right_hand as u128),
        (1, link.non_coherent as u128),
        (2, 0),
        (4, link.modulation as u128),
        (3, link.modulation_index as u128),
        (1, 0),
        (6, link.coding as u128),
        (2, 0),
        (8, link.signal_to_noise as u128),
        (8, 0),
        (16, link.symbol_rate as u128),
        (32, link.frequency as u128),
    ])
}
