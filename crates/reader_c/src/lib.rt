// The reader's questions for C: numbers and slices of bytes in, a number out.
// What C calls has C's form: a number for a run and for an answer, and places to write numbers to, in place of enums and results.
#![tactic(auto)]

ghost use Rattle.std.specs.Prelude.{◌≡◌, length};
ghost use Rattle.reader.specs.Numbers.{run_numbered};
ghost use Rattle.reader.specs.Reads.{read_part};
ghost use Rattle.reader_c.specs.Answers.{part_answer, part_number, part_out, place_answer, place_number, place_of, width_of};

use reader::fault::Run;
use reader::layers::read_part;

// The answer where `out` has fewer bytes than the part.
const NO_ROOM: u32 = 100;

// No part takes more bytes.
const WIDEST: usize = 4;

// Where part `number` of a run stands: answers 0, with its place and how many bytes it takes; or the fault's number, and leaves both as they were.
#[unsafe(no_mangle)]
pub extern "C" fn safte_place(
    config: &[u8],
    page: &[u8],
    run: u32,
    number: u32,
    place: &mut u32,
    width: &mut u32,
) -> u32
    ensures answer { result ≡ place_answer (read_part config.now page.now (run_numbered run) number) }
    ensures place { place.new ≡ place_number place_of (read_part config.now page.now (run_numbered run) number) place.old }
    ensures width { width.new ≡ place_number width_of (read_part config.now page.now (run_numbered run) number) width.old }
{
    let mut bytes = [0; WIDEST];
    safte_part(config, page, run, number, &mut bytes, place, width)
}

// The same, with the part's bytes at the front of `out`, whose other bytes stay. Where they have no room there, answers 100 and leaves all as it was.
#[unsafe(no_mangle)]
pub extern "C" fn safte_part(
    config: &[u8],
    page: &[u8],
    run: u32,
    number: u32,
    out: &mut [u8],
    place: &mut u32,
    width: &mut u32,
) -> u32
    ensures answer { result ≡ part_answer (length out.old) (read_part config.now page.now (run_numbered run) number) }
    ensures out { out.new ≡ part_out (read_part config.now page.now (run_numbered run) number) out.old }
    ensures place { place.new ≡ part_number place_of (length out.old) (read_part config.now page.now (run_numbered run) number) place.old }
    ensures width { width.new ≡ part_number width_of (length out.old) (read_part config.now page.now (run_numbered run) number) width.old }
{
    match read_part(config, page, Run::from(run), number as usize) {
        Ok(found) => {
            let size = found.bytes.len();
            if out.len() < size {
                return NO_ROOM;
            }
            out[..size].copy_from_slice(found.bytes);
            *place = found.place as u32;
            *width = size as u32;
            0
        }
        Err(fault) => u32::from(fault),
    }
}
