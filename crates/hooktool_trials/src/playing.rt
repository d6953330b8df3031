//! The lines of a test, played in a row.
ghost use Rattle.std.specs.Prelude.{◌≡◌, ◌%◌, ◌++◌, ◌⊎◌, IfErr, IfOk, OnOk};
ghost use Rattle.maps.specs.Access.{last_stored};
ghost use Rattle.maps.specs.Words.{IsSeatOf, seat_after};
ghost use Rattle.maps.specs.declared.access.Access.TheVariants.{Cell};
ghost use Rattle.hooktool_trials.specs.Plays.{compared, judged, points_of};
ghost use Rattle.hooktool_trials.specs.Stops.{IsNoCapture, IsNoProgram, IsPacketUnread, IsStopped};
ghost use Rattle.hooktool_trials.specs.Stops.{IsUnasked, IsUnaskedOf, IsUnaskedOfOne, IsUnread};
ghost use Rattle.hooktool_trials.specs.Stops.{Stops, error_of};

use crate::answers::{is_any_stuck, last_among, meets};
use crate::arrivals::packet_question;
use crate::asking::{ask, hook_of};
use crate::captures::{self, Capture, CaptureError, FrameContent, LinkType, Record, content_of};
use crate::error::TrialError;
use crate::files::WholeFiles;
use crate::requests::{PacketSource, Question};
use crate::stage::{Found, Last, Point, PointResult, Stage};
use crate::steps::{ExpectedAnswer, PlainStep, Step, TestLine};
use crate::stopped::{PlayError, Stopped};
use maps::{Seat, Shared};
use std::alloc::{AllocError, Global};
use whole_files::ReadFault;
use words::Second;

impl From<TrialError> for PlayError {
    ghost from_gives = { λ trial error. error ≡ error_of trial };

    fn from(error: TrialError) -> PlayError {
        match error {
            TrialError::Memory => PlayError::Memory,
            error => PlayError::Object(error),
        }
    }
}

/// The bytes of the file at the path.
fn read<R: WholeFiles>(rt: &R, path: &str) -> Result<Vec<u8>, PlayError>
    ensures bytes { IfOk result (λ bytes. R.known.holds path.now bytes.items) }
    ensures fault { IfErr result (IsUnread R.known path.now) }
{
    match rt.read_whole(path) {
        Ok(bytes) => Ok(bytes),
        Err(ReadFault::Unreadable) => Err(PlayError::Unreadable),
        Err(ReadFault::Memory) => Err(PlayError::Memory),
    }
}

/// Asks the stage's program, and keeps how its last run ended.
fn ask_once(
    alloc: Global,
    stage: &mut Stage,
    packet: &[u8],
    question: &Question<'_>,
    shared: &Shared,
    seat: &mut Seat,
) -> Result<PointResult, PlayError>
    requires { IsSeatOf shared.now seat.old }
    ensures table { IsSeatOf shared.now seat.new }
    ensures fault { IfErr result IsUnasked }
{
    if stage.bytes.is_empty() {
        return Err(PlayError::NoProgram);
    }
    let hook = hook_of(alloc, &stage.bytes)?;
    let endings = ask(alloc, &stage.bytes, packet, question, shared, seat)?;
    let last = last_among(hook, &endings);
    stage.last = last;
    Ok(PointResult {
        is_ok: !is_any_stuck(&endings),
        found: Found::Run(last),
    })
}

/// Asks the question of a line, of its packet or of that in the file that it names.
fn ask_question<R: WholeFiles + AllocGlobal>(
    rt: &R,
    stage: &mut Stage,
    question: &Question<'_>,
    shared: &Shared,
    seat: &mut Seat,
) -> Result<PointResult, PlayError>
    requires { IsSeatOf shared.now seat.old }
    ensures table { IsSeatOf shared.now seat.new }
    ensures fault { IfErr result (λ error. IsUnasked error
        ⊎ IsPacketUnread R.known question.now.packet error) }
{
    match &question.packet {
        PacketSource::Bytes(packet) => ask_once(rt.alloc(), stage, packet, question, shared, seat),
        PacketSource::File(path) => {
            let packet = read(rt, path)?;
            ask_once(rt.alloc(), stage, &packet, question, shared, seat)
        }
    }
}

/// Asks of the OSPF packet in a frame, if it has one, as one that comes in at the interface at its
/// second.
fn ask_frame(
    alloc: Global,
    stage: &mut Stage,
    link: LinkType,
    record: Record<'_>,
    interface: u16,
    shared: &Shared,
    seat: &mut Seat,
) -> Result<Option<PointResult>, PlayError>
    requires { IsSeatOf shared.now seat.old }
    ensures table { IsSeatOf shared.now seat.new }
    ensures fault { IfErr result IsUnaskedOfOne }
{
    match content_of(link, record.frame) {
        FrameContent::Other => Ok(None),
        FrameContent::Cut => Err(PlayError::CutPacket),
        FrameContent::Packet(packet) => {
            let moment = Second::new(u64::from(record.seconds));
            let question = packet_question(alloc, interface, moment);
            let verdict = ask_once(alloc, stage, packet, &question, shared, seat)?;
            Ok(Some(verdict))
        }
    }
}

/// Asks of each OSPF packet of a capture.
fn ask_packets(
    alloc: Global,
    stage: &mut Stage,
    capture: &Capture<'_>,
    interface: u16,
    shared: &Shared,
    seat: &mut Seat,
) -> Result<PointResult, PlayError>
    requires { IsSeatOf shared.now seat.old }
    ensures table { IsSeatOf shared.now seat.new }
    ensures fault { IfErr result IsUnaskedOfOne }
{
    let mut asked: u64 = 0;
    for record in &capture.records {
        let link = capture.link;
        if let Some(verdict) = ask_frame(alloc, stage, link, *record, interface, shared, seat)? {
            if !verdict.is_ok {
                return Ok(verdict);
            }
            asked = asked.saturating_add(1);
        }
    }
    Ok(PointResult {
        is_ok: true,
        found: Found::Packets(asked),
    })
}

/// Asks of each OSPF packet of the capture that these bytes are.
fn ask_bytes(
    alloc: Global,
    stage: &mut Stage,
    bytes: &[u8],
    interface: u16,
    shared: &Shared,
    seat: &mut Seat,
) -> Result<PointResult, PlayError>
    requires { IsSeatOf shared.now seat.old }
    ensures table { IsSeatOf shared.now seat.new }
    ensures fault { IfErr result (IsUnaskedOf bytes.now) }
{
    match captures::read(alloc, bytes) {
        Ok(capture) => ask_packets(alloc, stage, &capture, interface, shared, seat),
        Err(CaptureError::Memory) => Err(PlayError::Memory),
        Err(error) => Err(PlayError::Capture(error)),
    }
}

/// Asks of each OSPF packet of the capture in the file at the path.
fn ask_capture<R: WholeFiles + AllocGlobal>(
    rt: &R,
    stage: &mut Stage,
    path: &str,
    interface: u16,
    shared: &Shared,
    seat: &mut Seat,
) -> Result<PointResult, PlayError>
    requires { IsSeatOf shared.now seat.old }
    ensures table { IsSeatOf shared.now seat.new }
    ensures fault { IfErr result (λ error. IsUnread R.known path.now error
        ⊎ IsNoCapture R.known path.now error) }
{
    let bytes = read(rt, path)?;
    ask_bytes(rt.alloc(), stage, &bytes, interface, shared, seat)
}

/// Takes the program of the object file at this path, which the following questions are asked of.
fn take_program<R: WholeFiles + AllocGlobal>(
    rt: &R,
    stage: &mut Stage,
    path: &str,
) -> Result<(), PlayError>
    ensures { IfErr result (λ error. IsUnread R.known path.now error
        ⊎ IsNoProgram R.known path.now error) }
{
    let bytes = read(rt, path)?;
    let _ = hook_of(rt.alloc(), &bytes)?;
    stage.bytes = bytes;
    stage.last = Last::Nothing;
    Ok(())
}

/// Compares a number with the one that is expected.
fn compare(found: u64, expected: u64) -> PointResult
    ensures { result ≡ compared found expected }
{
    PointResult {
        is_ok: found == expected,
        found: Found::Number(found),
    }
}

/// The number in a cell of the seat.
fn cell_at(shared: &Shared, seat: &mut Seat, index: u8) -> u64
    requires { IsSeatOf shared.now seat.old }
    ensures table { IsSeatOf shared.now seat.new }
    ensures noted { seat.new ≡ seat_after seat.old (Cell (index % 64) result) }
    ensures value { result ≡ last_stored (index % 64) seat.old.accesses }
{
    shared.cell(seat, usize::from(index % 64))
}

/// Compares the last run's end with the answer that is expected.
fn compare_answer(last: Last, expected: ExpectedAnswer) -> PointResult
    ensures { result ≡ judged last expected }
{
    PointResult {
        is_ok: meets(expected, last),
        found: Found::Run(last),
    }
}

/// Plays a step: whether it is ok, if it asks or expects something.
fn play_step<R: WholeFiles + AllocGlobal>(
    rt: &R,
    stage: &mut Stage,
    step: &Step<'_>,
    shared: &Shared,
    seat: &mut Seat,
) -> Result<Option<PointResult>, PlayError>
    requires { IsSeatOf shared.now seat.old }
    ensures table { IsSeatOf shared.now seat.new }
    ensures fault { IfErr result (Stops R.known step.now) }
{
    match step {
        Step::Plain(PlainStep::Program(path)) => match take_program(rt, stage, path) {
            Ok(()) => Ok(None),
            Err(error) => Err(error),
        },
        Step::Ask(question) => match ask_question(rt, stage, question, shared, seat) {
            Ok(verdict) => Ok(Some(verdict)),
            Err(error) => Err(error),
        },
        Step::Plain(PlainStep::Packets { path, interface }) => {
            match ask_capture(rt, stage, path, *interface, shared, seat) {
                Ok(verdict) => Ok(Some(verdict)),
                Err(error) => Err(error),
            }
        }
        Step::Plain(PlainStep::Answers(expected)) => Ok(Some(compare_answer(
            stage.last, *expected,
        ))),
        Step::Plain(PlainStep::Counter { index, number }) => {
            Ok(Some(compare(shared.read(seat, usize::from(*index)), *number)))
        }
        Step::Plain(PlainStep::Cell { index, number }) => {
            Ok(Some(compare(cell_at(shared, seat, *index), *number)))
        }
    }
}

/// Adds the point of a line, if it has a verdict.
fn push_point<'a>(
    points: &mut Vec<Point<'a>>,
    line: &TestLine<'a>,
    verdict: Option<PointResult>,
) -> Result<(), AllocError>
    ensures { OnOk result (points.new.items ≡ points.old.items ++ points_of line.now verdict) }
{
    if let Some(verdict) = verdict {
        points.push(Point {
            number: line.number,
            words: line.words,
            verdict,
        })?;
    }
    Ok(())
}

/// Plays a line, and adds its point, if it has a verdict.
fn play_line<'a, R: WholeFiles + AllocGlobal>(
    rt: &R,
    line: &TestLine<'a>,
    stage: &mut Stage,
    shared: &Shared,
    seat: &mut Seat,
    points: &mut Vec<Point<'a>>,
) -> Result<(), PlayError>
    requires { IsSeatOf shared.now seat.old }
    ensures table { IsSeatOf shared.now seat.new }
    ensures fault { IfErr result (λ error. (error ≡ PlayError.Memory)
        ⊎ Stops R.known line.now.step error) }
{
    match play_step(rt, stage, &line.step, shared, seat) {
        Ok(verdict) => match push_point(points, line, verdict) {
            Ok(()) => Ok(()),
            Err(_) => Err(PlayError::Memory),
        },
        Err(error) => Err(error),
    }
}

/// What is found at the lines, on these counters and cells.
fn play_lines<'a, R: WholeFiles + AllocGlobal>(
    rt: &R,
    lines: &[TestLine<'a>],
    stage: &mut Stage,
    shared: &Shared,
    seat: &mut Seat,
) -> Result<Vec<Point<'a>>, Stopped>
    requires { IsSeatOf shared.now seat.old }
    ensures { IfErr result (IsStopped R.known lines.now) }
{
    let mut points = Vec::new(rt.alloc());
    for line in lines {
        match play_line(rt, line, stage, shared, seat, &mut points) {
            Ok(()) => (),
            Err(error) => {
                return Err(Stopped {
                    number: line.number,
                    error,
                });
            }
        }
    }
    Ok(points)
}

/// Plays the lines of a test in their order, on a new table whose counters and cells are 0: what is
/// found at each that asks or expects something.
///
/// # Errors
/// The first line that can't be played, by its number, and why; line 0 if an allocation for the
/// table is refused.
pub fn play<'a, R: WholeFiles + AllocGlobal>(
    rt: &R,
    lines: &[TestLine<'a>],
) -> Result<Vec<Point<'a>>, Stopped>
    ensures { IfErr result (IsStopped R.known lines.now) }
{
    let Ok((shared, mut seats)) = Shared::new(rt.alloc(), 1) else {
        return Err(Stopped {
            number: 0,
            error: PlayError::Memory,
        });
    };
    let mut seat = seats.remove(0);
    let mut stage = Stage {
        bytes: Vec::new(rt.alloc()),
        last: Last::Nothing,
    };
    play_lines(rt, lines, &mut stage, &shared, &mut seat)
}
