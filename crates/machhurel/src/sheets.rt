// The calls on an acceptance sheet, which is kept as 99 words. Any words at all get an answer.
ghost use Rattle.std.specs.Prelude.{◌≡◌};
ghost use Rattle.totals.specs.Sheets.{add_of, new_of};

use totals::WORDS;

pub fn machhurel_sheet_new(sheet: &mut [u64; WORDS], address: u64, length: u64) -> u64
    ensures { (result, sheet.new) ≡ new_of sheet.old address length }
{
    totals::new_sheet(sheet, address, length)
}

pub fn machhurel_sheet_add(sheet: &mut [u64; WORDS], log: &[u8]) -> u64
    ensures { (result, sheet.new) ≡ add_of sheet.old log.now }
{
    totals::add_log(sheet, log)
}
