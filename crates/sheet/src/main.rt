// sheet FILE: prints the acceptance sheet of a file of logs, or the number of the first refusal. The file is read to its end before
// anything is printed, in blocks, so that it may be larger than memory.
#![tactic(auto)]

ghost use Rattle.std.specs.Prelude.{◌≡◌, IfOk, IfSome, OnErr};
ghost use Rattle.filing.specs.Feeds.{Ready};

use filing::Feed;
use std::env::{Env, FillError};
use std::fs::File;
use std::io;
use std::io::{Read, Write};
use totals::WORDS;

// The longest sheet has room in the first, and the longest log in the second.
const REPORT_BYTES: usize = 4096;

const BLOCK_BYTES: usize = 65536;

// What a file is read into: the sheet's words, the bytes of the part under way, and a block of the file.
#[derive(Drop)]
struct Room {
    words: [u64; WORDS],
    carry: [u8; BLOCK_BYTES],
    block: [u8; BLOCK_BYTES],
}

impl Room {
    // The feed after one block more; none where the file has ended. No contract can say what is read: what is kept is that the feed
    // stays ready.
    fn take_block(&mut self, file: &mut File, f: Feed) -> io::Result<Option<Feed>>
        requires { Ready f self.old.carry }
        ensures ok { IfOk result (λ more. IfSome more (λ g. Ready g self.new.carry)) }
        ensures end { result ≡ Ok None → (self.new.words ≡ self.old.words) × (self.new.carry ≡ self.old.carry) }
        ensures err { OnErr result ((self.new.words ≡ self.old.words) × (self.new.carry ≡ self.old.carry)) }
    {
        let n = file.read(&mut self.block)?;
        if n == 0 {
            return Ok(None);
        }
        let g = filing::feed_block(f, &mut self.words, &mut self.carry, &self.block[..n]);
        Ok(Some(g))
    }

    // All of them: no run uses the turns up.
    fn take_all(&mut self, file: &mut File) -> io::Result<Feed> {
        let mut f = filing::begin();
        for _ in 0..u64::MAX {
            let Some(g) = self.take_block(file, f)? else {
                return Ok(f);
            };
            f = g;
        }
        Err(io::Error::other("no end"))
    }
}

// Stays: there is no heap, so the text is no String, and how many bytes it has stands beside it.
fn print(rt: &impl Print, f: Feed, words: &[u64; WORDS]) -> io::Result<()> {
    let number = filing::end_number(f);
    let mut out = laws::zeros::<REPORT_BYTES>();
    let n = printing::put_report(&mut out, number, words);
    io::writer(rt).write_all(&out[..n])
}

// Reads the file and prints the sheet.
fn print_file(rt: &HostRuntime, path: &str) -> io::Result<()> {
    let mut file = File::open(rt, path)?;
    let mut room = Room {
        words: [0u64; WORDS],
        carry: laws::zeros(),
        block: laws::zeros(),
    };
    let f = room.take_all(&mut file)?;
    print(rt, f, &room.words)
}

fn main(rt: HostRuntime) -> io::Result<()> {
    // Stays: there is no heap, so the file's name is no String.
    let mut room = [0u8; 4096];
    let n = match rt.arg(1, &mut room) {
        Ok(n) => n,
        Err(FillError::NotPresent) => return eprintln!(rt; "sheet: Invalid argument"),
        Err(FillError::TooLong) => return eprintln!(rt; "sheet: File name too long"),
    };
    let Ok(path) = str::from_utf8(&room[..n]) else {
        return eprintln!(rt; "sheet: the file's name is not UTF-8");
    };
    if let Err(error) = print_file(&rt, path) {
        return eprintln!(rt; "{path}: {error}");
    }
    Ok(())
}
