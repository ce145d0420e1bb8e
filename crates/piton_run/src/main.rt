#![tactic(auto)]

// The run program: reads an image from standard input, loads and runs it, and prints what came of it.
// The three buffers are three arguments: the calls lend them apart, as they do to C.
ghost use Rattle.std.specs.Prelude.{◌≡◌, ◌≢◌, ◌+◌, ◌*◌, ◌/◌, ◌≤◌, ◌<◌, length, take, IfOk, OnOk, IfErr, OnErr, IfSome, MatchOption};
ghost use Rattle.std.specs.Counts.{IsPrefixLen};
ghost use Rattle.std.specs.IoError.{error_kind};
ghost use Rattle.std.specs.Io.KnownBytes.{Appends, Consumes, IsAtEnd};
ghost use Rattle.scope.specs.Cells.{cell_at};
ghost use Rattle.scope.specs.Calls.{no_registers};
ghost use Rattle.scope.specs.Printing.{Writes};
ghost use Rattle.cells.specs.Rows.{cells};
ghost use Rattle.lines.specs.Written.{Wrote};
ghost use Rattle.calls.specs.Answers.{refused_run};
ghost use Rattle.piton_run.specs.Whole.{BytesFor, Asked, Fitting, RanWhole, first_line, cell_line, lines_of, told};
ghost use Rattle.piton_run.specs.Whole.{Answered, BrokenOff, AppendsPart, ConsumesPart};

use image::Header;
use scope::{Fault, Ran, Status};
use std::io;
use std::io::{ErrorKind, Read, Write};

const BUDGET: u32 = 1000000;

const MOST_INPUT: usize = 65536;

// ---- load and run

// The lengths of the buffers, in bytes.
#[derive(Clone, Copy, Default)]
struct Lengths {
    areas: usize,
    temporary: usize,
    control: usize,
}

// So many cells in bytes; nothing where an accepted image never has so many.
fn bytes_for(cells: usize, most: usize) -> usize
    requires { most ≤ 2048 }
    ensures { BytesFor cells most result }
{
    if cells <= most { 8 * cells } else { 0 }
}

// What the image asks for, if it has a header, and never more than an accepted one does.
#[tactic(auto, using(crate::proofs::Running::asks))]
fn asked(image: &[u8]) -> Option<Lengths>
    ensures { MatchOption result (length image.now < 52) (λ n. Asked image.now n) }
{
    let n = Header::of(image)?.counts();
    Some(Lengths {
        areas: bytes_for(n.cells, 2048),
        temporary: bytes_for(n.temporary, 1024),
        control: bytes_for(n.control, 2048),
    })
}

// A load and, unless it is refused, a run.
fn load_and_run(image: &[u8], areas: &mut [u8], temporary: &mut [u8], control: &mut [u8]) -> Ran
    requires { (length image.now ≤ 65536) × Fitting image.now areas.old temporary.old control.old }
    ensures { RanWhole image.now result areas.new }
{
    let loaded = piton::piton_load(image, areas, temporary, control);
    let registers = loaded.registers;
    if registers.status == Status::Run as u32 {
        piton::piton_run(image, registers, areas, temporary, control, BUDGET)
    } else {
        calls::refused_run(loaded.answer, loaded.place, registers)
    }
}

// ---- the lines

// `answer place steps status program offset temporary control`
fn put_first(out: &mut [u8], ran: Ran) -> usize
    requires { 88 ≤ length out.old }
    ensures { Wrote out.old 0 (first_line ran) out.new result × (result ≤ 88) }
{
    let registers = ran.registers;
    lines::put_numbers(
        out,
        0,
        &[
            ran.answer,
            ran.place,
            ran.steps,
            registers.status,
            registers.program,
            registers.offset.0,
            registers.temporary,
            registers.control,
        ],
        b'\n',
    )
}

// `number tag name value`. The end of what is written is returned: a cursor over `out` would have to promise that it keeps its buffer.
fn put_cell(out: &mut [u8], at: usize, areas: &[u8], i: usize) -> usize
    requires { (at + 44 ≤ length out.old) × (8 * i + 8 ≤ length areas.now) × (i < 2048) }
    ensures { Wrote out.old at (cell_line i (cell_at areas.now i)) out.new result × (result ≤ at + 44) }
{
    let c = cells::get(areas, i);
    lines::put_four(
        out,
        at,
        i as u32,
        c.tag as u32,
        c.name as u32,
        c.value,
        b'\n',
    )
}

#[tactic(auto, using(crate::proofs::Lines::cell_by_cell))]
fn put_cells(out: &mut [u8], at: usize, areas: &[u8]) -> usize
    requires { (at + 90112 ≤ length out.old) × (length areas.now ≤ 16384) }
    ensures { Wrote out.old at (lines_of (cells (length areas.now / 8) areas.now)) out.new result }
{
    let mut end = at;
    for i in 0..areas.len() / 8 {
        end = put_cell(out, end, areas, i);
    }
    end
}

// "After a refusal, only the first line."
fn put_run(out: &mut [u8], ran: Ran, areas: &[u8]) -> usize
    requires { (90200 ≤ length out.old) × (length areas.now ≤ 16384) }
    ensures { Wrote out.old 0 (told ran areas.now) out.new result }
{
    let end = put_first(out, ran);
    if ran.registers.status == Status::Refused as u32 {
        end
    } else {
        put_cells(out, end, areas)
    }
}

// ---- the whole

// Over buffers of the lengths that the image asks for.
fn tell_image(
    image: &[u8],
    areas: &mut [u8],
    temporary: &mut [u8],
    control: &mut [u8],
    out: &mut [u8],
) -> usize
    requires { (length image.now ≤ 65536) × Fitting image.now areas.old temporary.old control.old
        × (length areas.old ≤ 16384) × (90200 ≤ length out.old) }
    ensures { IsPrefixLen result out.new × Writes image.now (take result out.new) }
{
    let ran = load_and_run(image, areas, temporary, control);
    put_run(out, ran, areas)
}

// "Input longer than 65,536 bytes counts as 11."
#[tactic(auto, using(crate::proofs::Running::refused_long))]
fn too_long() -> Ran
    ensures { result ≡ refused_run 11 0 no_registers }
{
    let none = calls::refused_load(image::number(Fault::Length), 0);
    calls::refused_run(none.answer, none.place, none.registers)
}

// Puts what is printed after this input at the start of out, and returns its length.
#[tactic(auto, using(crate::proofs::Running::asks, crate::proofs::Running::cuts, crate::proofs::Lines::wrote_too_long))]
fn tell(
    input: &[u8],
    areas: &mut [u8],
    temporary: &mut [u8],
    control: &mut [u8],
    out: &mut [u8],
) -> usize
    requires { (16384 ≤ length areas.old) × (8192 ≤ length temporary.old) × (16384 ≤ length control.old)
        × (90200 ≤ length out.old) }
    ensures { IsPrefixLen result out.new × Writes input.now (take result out.new) }
{
    if input.len() <= MOST_INPUT {
        // An image with no header is refused, whatever is lent.
        let n = asked(input).unwrap_or_default();
        tell_image(
            input,
            &mut areas[..n.areas],
            &mut temporary[..n.temporary],
            &mut control[..n.control],
            out,
        )
    } else {
        put_first(out, too_long())
    }
}

// ---- standard input and output

// std's `read_exact` and `write_all` do not say what an error leaves, so the loops stand here: two, since `Read` and `Write` share no trait.

// Reads until buf is full or the input ends, and returns how many bytes it put at the start of buf. A read that a signal
// interrupts is tried again; one that fails otherwise ends it, as what was read till then is not the whole.
fn read_full<R: Read>(from: &mut R, buf: &mut [u8]) -> io::Result<usize>
    ensures within { IfOk result (λ n. IsPrefixLen n buf.new) }
    ensures bytes { IfOk result
        (λ n. Consumes (R.remaining from.old) (R.remaining from.new) (take n buf.new)) }
    ensures end { IfOk result (λ n. n < length buf.new → IsAtEnd (R.remaining from.new)) }
    ensures err { OnErr result (ConsumesPart (R.remaining from.old) (R.remaining from.new) buf.new) }
    ensures retried { IfErr result (λ e. error_kind e ≢ ErrorKind.Interrupted) }
{
    let mut done = 0;
    for _ in 0..u64::MAX {
        if done >= buf.len() {
            return Ok(done);
        }
        match from.read(&mut buf[done..]) {
            Ok(0) => return Ok(done),
            Ok(n) => done += n,
            Err(e) => {
                if e.kind() != ErrorKind::Interrupted {
                    return Err(e);
                }
            }
        }
    }
    Err(io::Error::from(ErrorKind::TimedOut))
}

// Writes all of buf. A write that a signal interrupts is tried again; after one that fails otherwise a beginning of buf is
// written.
fn write_full<W: Write>(to: &mut W, buf: &[u8]) -> io::Result<()>
    ensures ok { OnOk result (Appends (W.contents to.old) (W.contents to.new) buf.now) }
    ensures err { OnErr result (AppendsPart (W.contents to.old) (W.contents to.new) buf.now) }
    ensures retried { IfErr result (λ e. error_kind e ≢ ErrorKind.Interrupted) }
{
    let mut written = 0;
    for _ in 0..u64::MAX {
        if written >= buf.len() {
            return Ok(());
        }
        match to.write(&buf[written..]) {
            Ok(0) => return Err(io::Error::from(ErrorKind::WriteZero)),
            Ok(n) => written += n,
            Err(error) => {
                if error.kind() != ErrorKind::Interrupted {
                    return Err(error);
                }
            }
        }
    }
    Err(io::Error::from(ErrorKind::TimedOut))
}

// One byte more than counts is enough to tell that there is more. The first line takes at most 88 bytes, and each of 2,048
// cells 44.
fn serve<R: Read, W: Write>(from: &mut R, to: &mut W) -> io::Result<()>
    ensures ok { OnOk result
        (IfSome (R.remaining from.old) (λ input. Answered input (W.contents to.old) (W.contents to.new))) }
    ensures err { OnErr result
        (IfSome (R.remaining from.old) (λ input. BrokenOff input (W.contents to.old) (W.contents to.new))) }
    ensures retried { IfErr result (λ e. error_kind e ≢ ErrorKind.Interrupted) }
{
    let mut input = [0u8; 65537];
    let mut areas = [0u8; 16384];
    let mut temporary = [0u8; 8192];
    let mut control = [0u8; 16384];
    let mut out = [0u8; 90200];
    let n = read_full(from, &mut input)?;
    let end = tell(
        &input[..n],
        &mut areas,
        &mut temporary,
        &mut control,
        &mut out,
    );
    write_full(to, &out[..end])
}

fn main(rt: HostRuntime) -> io::Result<()> {
    serve(&mut rt.stdin(), &mut rt.stdout())
}
