// The sheet's lines, or its refusal.
// Stays: document 01's form, a writer is lent the part of the buffer behind what was written so far.
ghost use Rattle.std.specs.Prelude.{◌+◌, ◌≤◌, length};
ghost use Rattle.laws.specs.Lending.{size, Logged};
ghost use Rattle.decimal.specs.Words.{word_bytes};
ghost use Rattle.totals.specs.Sheets.{sheet_words};
ghost use Rattle.printing.specs.Texts.{count_lines, counts_text, end_text, sheet_text, report_text};

use crate::lines::{put_around, put_count, put_pair};
use totals::{BANK_COUNT, IN, KNOWN, LOGS, OUT, PART, READS, SIZE_COUNT, SIZES, WORDS, WRITES};

// The counts of numbers from a first one on; that of number k stands in the word base + k.
// Stays: a struct of letter, base, first and count would be made by one function and taken apart by one, and is no plainer.
fn put_counts(
    out: &mut [u8],
    letter: &[u8],
    words: &[u64; WORDS],
    base: usize,
    first: usize,
    count: usize,
) -> usize
    requires { (size word_bytes (count_lines letter.now base first count words.now) ≤ length out.old) × (base + first + count ≤ sheet_words) }
    ensures { Logged word_bytes (count_lines letter.now base first count words.now) out.old out.new result }
{
    let mut n = 0;
    for k in first..first + count {
        n += put_count(&mut out[n..], letter, k as u64, words[base + k]);
    }
    n
}

fn put_all_counts(out: &mut [u8], words: &[u64; WORDS]) -> usize
    requires { size word_bytes (counts_text words.now) ≤ length out.old }
    ensures { Logged word_bytes (counts_text words.now) out.old out.new result }
{
    let a = put_counts(out, b"r", words, READS, 0, BANK_COUNT);
    let b = a + put_counts(&mut out[a..], b"w", words, WRITES, 0, BANK_COUNT);
    b + put_counts(&mut out[b..], b"s", words, SIZES, 1, SIZE_COUNT)
}

// Bytes read and written, and the part writes.
fn put_end(out: &mut [u8], words: &[u64; WORDS]) -> usize
    requires { size word_bytes (end_text words.now) ≤ length out.old }
    ensures { Logged word_bytes (end_text words.now) out.old out.new result }
{
    let a = put_around(out, b"in ", words[IN], b"\n");
    let b = a + put_around(&mut out[a..], b"out ", words[OUT], b"\n");
    b + put_pair(&mut out[b..], b"part ", words[PART], b"/", words[KNOWN])
}

fn put_sheet(out: &mut [u8], words: &[u64; WORDS]) -> usize
    requires { size word_bytes (sheet_text words.now) ≤ length out.old }
    ensures { Logged word_bytes (sheet_text words.now) out.old out.new result }
{
    let a = put_around(out, b"logs ", words[LOGS], b"\n");
    let b = a + put_all_counts(&mut out[a..], words);
    b + put_end(&mut out[b..], words)
}

// The sheet, or the number that was refused.
// Stays: the number is the one of the theorem FileIsRead, and `report_text` is said of it; 0 is no refusal.
pub fn put_report(out: &mut [u8], number: u64, words: &[u64; WORDS]) -> usize
    requires { size word_bytes (report_text number words.now) ≤ length out.old }
    ensures { Logged word_bytes (report_text number words.now) out.old out.new result }
{
    if number != 0 {
        return put_around(out, b"refused ", number, b"\n");
    }
    put_sheet(out, words)
}
