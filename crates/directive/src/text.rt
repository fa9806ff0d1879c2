//! Directives as text.
use super::directive::{Directive, ReportRequest};
use super::link::{Coding, Duplex, LinkEstablishment, Modulation};
use super::rate::doubled_rate;
use std::fmt;

impl fmt::Display for Duplex {
    fn fmt<W: fmt::Write>(&self, f: &mut fmt::Formatter<W>) -> fmt::Result {
        f.write_str(match self {
            Duplex::NoChange => "no change",
            Duplex::Full => "full",
            Duplex::Half => "half",
            Duplex::SimplexTransmit => "simplex transmit",
            Duplex::SimplexReceive => "simplex receive",
        })
    }
}

impl fmt::Display for Modulation {
    fn fmt<W: fmt::Write>(&self, f: &mut fmt::Formatter<W>) -> fmt::Result {
        f.write_str(match self {
            Modulation::BiPhaseL => "bi-phase-L",
            Modulation::Gmsk => "GMSK",
        })
    }
}

impl fmt::Display for Coding {
    fn fmt<W: fmt::Write>(&self, f: &mut fmt::Formatter<W>) -> fmt::Result {
        f.write_str(match self {
            Coding::Uncoded => "uncoded",
            Coding::Ldpc2048 => "LDPC (2048, 1024)",
            Coding::Ldpc6144 => "LDPC (6144, 4096)",
            Coding::Ldpc8160 => "LDPC (8160, 7136)",
        })
    }
}

// The first text of a field of one bit that is set, else the second.
fn either(value: bool, set: &'static str, clear: &'static str) -> &'static str {
    if value { set } else { clear }
}

// What a link establishment asks of the other side.
fn write_wishes<W: fmt::Write>(link: &LinkEstablishment, f: &mut fmt::Formatter<W>) -> fmt::Result {
    let direction = either(link.forward, "forward", "return");
    let query = either(link.query, "query", "demand");
    let response = either(link.rejected, "not accepted", "accepted");
    let remote = either(
        link.no_more_data,
        "remote has no more data",
        "remote unchanged",
    );
    let token = either(link.transmit, "token to transmit", "token unchanged");
    let duplex = link.duplex;
    write!(
        f,
        "{direction}, {query}, {response}, {remote}, {token}, duplex {duplex}"
    )
}

// How the signal of a link is made.
fn write_signal<W: fmt::Write>(link: &LinkEstablishment, f: &mut fmt::Formatter<W>) -> fmt::Result {
    let polarization = either(link.right_hand, "right-hand", "left-hand");
    let coherence = either(link.non_coherent, "non-coherent", "coherent");
    let modulation = link.modulation;
    let index = link.modulation_index;
    let coding = link.coding;
    let noise = link.signal_to_noise;
    write!(
        f,
        "{polarization}, {coherence}, modulation {modulation} of index {index}, {coding}, signal to noise {noise}"
    )
}

// The rate is told in halves, which a decimal shows as they are.
fn write_rate<W: fmt::Write>(field: u16, f: &mut fmt::Formatter<W>) -> fmt::Result {
    let Some(doubled) = doubled_rate(field) else {
        return f.write_str("symbol rate out of range");
    };
    let whole = doubled / 2;
    let half = either(doubled % 2 == 1, ".5", "");
    write!(f, "symbol rate {whole}{half} symbols/s")
}

impl fmt::Display for LinkEstablishment {
    fn fmt<W: fmt::Write>(&self, f: &mut fmt::Formatter<W>) -> fmt::Result {
        write_wishes(self, f)?;
        f.write_str(", ")?;
        write_signal(self, f)?;
        f.write_str(", ")?;
        write_rate(self.symbol_rate, f)?;
        write!(f, ", frequency bits {:08X}", self.frequency)
    }
}

impl fmt::Display for ReportRequest {
    fn fmt<W: fmt::Write>(&self, f: &mut fmt::Formatter<W>) -> fmt::Result {
        let channel0 = either(self.channel0, "yes", "no");
        let channel1 = either(self.channel1, "yes", "no");
        let tags = self.time_tags;
        let status = self.status;
        write!(
            f,
            "channel 0 {channel0}, channel 1 {channel1}, {tags} time tags, status {status}"
        )
    }
}

impl fmt::Display for Directive {
    fn fmt<W: fmt::Write>(&self, f: &mut fmt::Formatter<W>) -> fmt::Result {
        match self {
            Directive::LinkEstablishment(link) => write!(f, "link establishment: {link}"),
            Directive::ReportRequest(request) => write!(f, "report request: {request}"),
            Directive::SetVr(number) => write!(f, "SET V(R): number {number}"),
            Directive::SourceId(id) => write!(f, "source id: {id}"),
        }
    }
}
