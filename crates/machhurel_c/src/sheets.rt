// The C interface of an acceptance sheet: a C caller keeps it as 99 words. Any words at all get an answer.
ghost use Rattle.std.specs.Prelude.{◌≡◌};
ghost use Rattle.totals.specs.Sheets.{add_of, new_of};

use totals::WORDS;

#[unsafe(no_mangle)]
pub extern "C" fn machhurel_sheet_new(sheet: &mut [u64; WORDS], address: u64, length: u64) -> u64
    ensures { (result, sheet.new) ≡ new_of sheet.old address length }
{
    machhurel::machhurel_sheet_new(sheet, address, length)
}

#[unsafe(no_mangle)]
pub extern "C" fn machhurel_sheet_add(sheet: &mut [u64; WORDS], log: &[u8]) -> u64
    ensures { (result, sheet.new) ≡ add_of sheet.old log.now }
{
    machhurel::machhurel_sheet_add(sheet, log)
}
