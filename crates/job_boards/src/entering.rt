// Entering one line about the board into the plan.
ghost use Rattle.std.specs.Prelude.{◌≡◌, ◌≤◌, ◌↔◌, length, IsTrue, Any};
ghost use Rattle.job_lines.specs.Grammar.{pad, land, keep};
ghost use Rattle.job_boards.specs.declared.entering.Stop.TheVariants.{Fault, Memory};
ghost use Rattle.job_boards.specs.Plans.{layers};
ghost use Rattle.job_boards.specs.Reading.{named, plan_of, Takes, Entered, LineEntered};

use crate::plan::{Pad, Plan};
use boards::maps::MapKind;
use boards::place::Place;
use job_lines::faults::LineFault;
use job_lines::line::Line;
use job_lines::read::read_line;
use std::alloc::AllocFailed;

// The bits of a map's byte for a pad point and for a landing point.
const PAD_POINT: u8 = 1;

const LANDING_POINT: u8 = 2;

// Why a line is not entered.
#[derive(Clone, Copy, PartialEq, Eq, Debug)]
pub(crate) enum Stop {
    Fault(LineFault),
    // The line is a call: the lines about the board are over.
    Call,
    Memory,
}

impl From<LineFault> for Stop {
    ghost from_gives = { λ fault r. r ≡ Fault fault };

    fn from(fault: LineFault) -> Stop {
        Stop::Fault(fault)
    }
}

impl<T: Drop> From<AllocFailed<T>> for Stop {
    ghost from_gives = { λ _ r. r ≡ Memory };

    fn from(_error: AllocFailed<T>) -> Stop {
        Stop::Memory
    }
}

// Enters a line, without its LF.
pub(crate) fn enter_line<'a>(plan: &mut Plan<'a>, bytes: &'a [u8]) -> Result<(), Stop>
    ensures { LineEntered (plan_of plan.old) (plan_of plan.new) bytes.now result }
{
    match read_line(bytes).ok_or(LineFault::NoForm)? {
        Line::Pad { name, row, column } => enter_pad(plan, Pad { name, row, column }),
        Line::Land { row, column } => enter_land(plan, row, column),
        Line::Keep { layer, row, column } => enter_keep(plan, Place { layer, row, column }),
        Line::Field { .. } | Line::Escape { .. } => Err(LineFault::OutOfPlace.into()),
        _ => Err(Stop::Call),
    }
}

fn enter_pad<'a>(plan: &mut Plan<'a>, new: Pad<'a>) -> Result<(), Stop>
    ensures { Entered (plan_of plan.old) (plan_of plan.new) (pad new.entry.name.now new.entry.row new.entry.column) result }
{
    if is_full(plan) {
        return Err(LineFault::OutOfPlace.into());
    }
    if is_taken(&plan.pads, new) {
        return Err(LineFault::Names.into());
    }
    let place = new.place();
    if !plan.header.has(place) {
        return Err(LineFault::OffBoard.into());
    }
    plan.pads.push(new)?;
    let index = plan.header.index_of(place);
    plan.map[index] |= PAD_POINT;
    Ok(())
}

fn enter_land(plan: &mut Plan, row: u16, column: u16) -> Result<(), Stop>
    ensures { Entered (plan_of plan.old) (plan_of plan.new) (land row column) result }
{
    if plan.header.kind == MapKind::EscapeMap {
        return Err(LineFault::OutOfPlace.into());
    }
    let place = Place {
        layer: 1,
        row,
        column,
    };
    if !plan.header.has(place) {
        return Err(LineFault::OffBoard.into());
    }
    let index = plan.header.index_of(place);
    plan.map[index] |= LANDING_POINT;
    Ok(())
}

fn enter_keep(plan: &mut Plan, place: Place) -> Result<(), Stop>
    ensures { Entered (plan_of plan.old) (plan_of plan.new) (keep place.layer place.row place.column) result }
{
    if !plan.header.has(place) {
        return Err(LineFault::OffBoard.into());
    }
    let cell = plan.header.cell_of(place);
    plan.kept.push(cell)?;
    Ok(())
}

// Whether there is no room for another pad.
fn is_full(plan: &Plan) -> bool
    ensures { IsTrue result ↔ (128 ≤ length (plan_of plan.now).pads) }
{
    plan.pads.len() >= 128
}

// Whether some pad has the name of another, or lies at its point.
fn is_taken(pads: &[Pad], new: Pad) -> bool
    ensures { IsTrue result ↔ Any (λ pad. Takes (named pad) new.entry.name.now new.entry.row new.entry.column) pads.now }
{
    pads.iter().any(|pad| pad.takes(new))
}

// How many layers such a board has.
pub fn layer_count(kind: MapKind) -> u16
    ensures { result ≡ layers kind }
{
    match kind {
        MapKind::FieldMap => 2,
        MapKind::EscapeMap => 1,
    }
}
