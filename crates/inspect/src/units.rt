//! What is said of the supervisory unit in a frame.
ghost use Rattle.std.specs.Prelude.{◌≡◌};
ghost use Rattle.spdu.specs.Item.{item_octets, item_value};

use super::hexadecimal::Hexadecimal;
use super::names::octets_name;
use super::refusals::print_refusal;
use directive::fault::SpduFault;
use inspection::rewriting::{directive_is, report_is, spdu_is};
use spdu::item::{Fields, Item};
use spdu::items::Items;
use spdu::spdu::{check_spdu, read_spdu};
use std::io;

// The octets that an item is made of.
fn octets_of<'a>(item: Item<'a>) -> &'a [u8]
    ensures { result.now ≡ item_octets (item_value item.entry) }
{
    match item {
        Item::Report(octets)
        | Item::Type1(octets)
        | Item::Type2(octets)
        | Item::Type3(octets)
        | Item::LinkEstablishment(octets)
        | Item::ReportRequest(octets)
        | Item::SetVr(octets)
        | Item::SourceId(octets) => octets,
    }
}

fn print_octets(rt: &HostRuntime, item: Item<'_>, octets: &[u8]) -> io::Result<()> {
    let name = match item {
        Item::Type1(_) => "Type 1",
        Item::Type2(_) => "Type 2",
        _ => "Type 3",
    };
    let count = octets.len();
    let octets_word = octets_name(count);
    let shown = Hexadecimal(octets);
    println!(rt; "   {name}: {count} {octets_word}{shown}")
}

// Says so if a record is not written as it was read.
fn print_rewritten(rt: &HostRuntime, same: bool) -> io::Result<()> {
    if same {
        return Ok(());
    }
    println!(rt; "   written again: DIFFERENT octets")
}

// Why the printing of a unit stops before its end.
#[derive(Drop)]
enum Stop {
    Output(io::Error),
    Refusal(SpduFault),
}

impl From<io::Error> for Stop {
    fn from(error: io::Error) -> Stop {
        Stop::Output(error)
    }
}

impl From<SpduFault> for Stop {
    fn from(fault: SpduFault) -> Stop {
        Stop::Refusal(fault)
    }
}

fn print_item(rt: &HostRuntime, item: Item<'_>) -> Result<(), Stop> {
    // Never refused, since the reader of items has tried this one.
    match item.fields()? {
        Fields::Report(report) => {
            println!(rt; "   report: {report}")?;
            print_rewritten(rt, report_is(report, octets_of(item)))?;
        }
        Fields::Octets(octets) => print_octets(rt, item, octets)?,
        Fields::Directive(directive) => {
            println!(rt; "   {directive}")?;
            print_rewritten(rt, directive_is(directive, octets_of(item)))?;
        }
    }
    Ok(())
}

// Prints the items of a unit up to its end, or to the fault at which the reading stops.
fn print_items(rt: &HostRuntime, unit: &[u8]) -> Result<(), Stop> {
    let mut items = Items::new(unit);
    let mut empty = true;
    while let Some(item) = items.next()? {
        empty = false;
        print_item(rt, item)?;
    }
    if empty {
        println!(rt; "   no directive")?;
    }
    Ok(())
}

// The checker and the reading of whole units go through the unit by themselves, and have to come to the same end.
fn print_checked(rt: &HostRuntime, unit: &[u8], told: Result<(), SpduFault>) -> io::Result<()> {
    if check_spdu(unit) != told {
        println!(rt; "   checked: a DIFFERENT answer")?;
    }
    match read_spdu(unit) {
        Ok(spdu) => print_rewritten(rt, spdu_is(spdu, unit)),
        Err(_) => Ok(()),
    }
}

/// Prints what a supervisory unit says, and hands on its refusal.
// Two results: a refused unit is printed and counted, and only printing can fail.
pub(crate) fn print_unit(rt: &HostRuntime, unit: &[u8]) -> io::Result<Result<(), SpduFault>> {
    let told = match print_items(rt, unit) {
        Ok(()) => Ok(()),
        Err(Stop::Refusal(fault)) => Err(fault),
        Err(Stop::Output(error)) => return Err(error),
    };
    if let Err(fault) = told {
        print!(rt; "   ")?;
        print_refusal(rt, &fault)?;
    }
    print_checked(rt, unit, told)?;
    Ok(told)
}
