// Replays the oracle's answers: each call must answer what the list says, and leave each byte of the lent buffer as the list says.
//
// The list, data/answers.list, was made from the given Rust by the program `list` of oracle/; oracle/README.md says what stands in it.
// In oracle/, this makes it again:
//
//     cargo run --release --offline --bin list > ../crates/replay/data/answers.list
#![tactic(auto)]

mod call;
mod calls;
mod cases;
mod files;
mod print;
mod tally;

ghost use Rattle.std.specs.Prelude.{◌≡◌, ◌≤◌, IfOk, length};

use std::fs::File;
use std::io;
use std::io::Read;

// "MACHLIST", lowest byte first.
const MARK: u64 = 0x5453_494C_4843_414D;

fn main(rt: HostRuntime) -> io::Result<()> {
    let path = "answers.list";
    match File::open(&rt, path) {
        Ok(mut file) => {
            // Stays: there is no heap, so the list is no Vec.
            let mut bytes = room_for_list();
            let n = read_list(&mut file, &mut bytes)?;
            replay(&rt, &bytes[..n])
        }
        Err(error) => eprintln!(rt; "{path}: {error}"),
    }
}

// The program that makes the list holds it to 600,000 bytes. The `ensures` spares `main` a look at each of them.
fn room_for_list() -> [u8; 600000]
    ensures { 600000 ≡ length result }
{
    laws::zeros()
}

// Reads until the file ends or the room is full, and answers how many bytes stand at its front.
// Stays: std's reading to a file's end fills a Vec, and there is no heap here; `read_exact` refuses a file that is shorter.
fn read_list(file: &mut File, room: &mut [u8]) -> io::Result<usize>
    ensures { IfOk result (λ n. n ≤ length room.new) }
{
    let mut done = 0;
    while done < room.len() {
        let n = file.read(&mut room[done..])?;
        if n == 0 {
            break;
        }
        done += n;
    }
    Ok(done)
}

fn replay(rt: &impl Print, list: &[u8]) -> io::Result<()> {
    if list.len() < 16 {
        return print::no_list(rt);
    }
    if laws::u64_at(list, 0) != MARK {
        return print::no_list(rt);
    }
    let files = laws::u32_at(list, 8);
    let cases = laws::u32_at(list, 12);
    let seen = tally::replay_all(rt, list, files::behind(list, files), cases)?;
    print::tally(rt, seen, cases, list.len())
}
