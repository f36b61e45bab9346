//! The rows of a file, taken one after the other by what is made of them.
ghost use Rattle.std.specs.Prelude.{◌≡◌, ◌≤◌, ◌+◌, ◌++◌, ◌∷◌, [], ℕ, Some, List, length, OnOk, IfNone, IfSome};
ghost use Rattle.gw_base.specs.Count.{Counts};
ghost use Rattle.stop_schedule.specs.Failures.{IfFailed};
ghost use Rattle.stop_schedule.specs.Answers.{Finds, HasFailed};
ghost use Rattle.stop_schedule.specs.Keeping.{KeepsTo};
ghost use Rattle.stop_schedule.specs.Limits.{row_limit};
ghost use Rattle.stop_schedule.specs.Faults.{Fits, fault_in, first_fault, row_fault as fault_of_row};
ghost use Rattle.stop_schedule.specs.Rows.{rows};
ghost use Rattle.stop_schedule.specs.Sheet.{Row, rows_in, sheet_of};
ghost use Rattle.stop_schedule.specs.Reading.{FindsFile};
ghost use Rattle.stop_schedule.specs.Timetable.{sheets_in};

use crate::checks::row_fault;
use crate::folder::read_file;
use crate::sheet::Sheet;
use crate::table_fault::TableFault;
use crate::table_file::TableFile;
use gw_base::{Bytes, Files};
use std::alloc::Global;

/// What takes the rows of a file.
pub(crate) trait TakesRows {
    ghost use Rattle.std.specs.Prelude.{ℕ, List, Option};
    ghost use Rattle.stop_schedule.specs.Sheet.{Row};
    ghost use Rattle.stop_schedule.specs.declared.table_file.TableFile.{TableFile};
    ghost use Rattle.stop_schedule.specs.declared.table_fault.TableFault.{TableFault};

    // The file.
    ghost file_of: { Self → TableFile };

    // The fault of a row whose fields have their forms, by the rows before it.
    ghost fault: { Self → List Row → Row → Option TableFault };

    // How many ids it was given, of which its rows name some.
    ghost given: { Self → ℕ };

    // What it keeps before it takes the data row of that number, whatever the rows say.
    ghost Keeps: { Self → ℕ → Type 0 };

    // The second holds what is made of these rows from the first on.
    ghost Holds: { Self → Self → List Row → Type 0 };

    /// The file.
    fn file(&self) -> TableFile
        ensures { result ≡ file_of self.now };

    /// Takes the row at hand, which is the data row of that number, or tells its fault.
    fn take(&mut self, alloc: Global, sheet: &Sheet<'_>, number: u64) -> Result<(), TableFault>
        requires fits { Fits (file_of self.old) number sheet.now.row }
        requires keeps { Keeps self.old number }
        ensures takes { (start : Self) (before : List Row) → Holds start self.old before → number ≡ length before + 1
            → Finds (fault self.old before sheet.now.row) (λ _. Holds start self.new (before ++ sheet.now.row ∷ []))
            result }
        ensures keeps { OnOk result (Keeps self.new (number + 1)) }
        ensures same_fault { fault self.new ≡ fault self.old }
        ensures same_file { file_of self.new ≡ file_of self.old }
        ensures same_given { given self.new ≡ given self.old }
        ensures no_failure { HasFailed result → ⊥ };

    /// Takes the row at hand, or tells its fault, where it is seen at once that its fields have their forms. Where it
    /// isn't seen, nothing changes.
    fn take_known(
        &mut self,
        _alloc: Global,
        sheet: &Sheet<'_>,
        number: u64,
    ) -> Option<Result<(), TableFault>>
        requires { Keeps self.old number }
        ensures takes { (start : Self) (before : List Row) → Holds start self.old before → number ≡ length before + 1
            → IfSome result (Finds (fault_of_row (file_of self.old) (fault self.old) before sheet.now.row)
            (λ _. Holds start self.new (before ++ sheet.now.row ∷ []))) }
        ensures unseen { IfNone result (self.new ≡ self.old) }
        ensures few { IfSome result (λ taken. OnOk taken (number ≤ row_limit (file_of self.old))) }
        ensures keeps { IfSome result (λ taken. OnOk taken (Keeps self.new (number + 1))) }
        ensures same_fault { fault self.new ≡ fault self.old }
        ensures same_file { file_of self.new ≡ file_of self.old }
        ensures same_given { given self.new ≡ given self.old }
        ensures no_failure { IfSome result (λ taken. HasFailed taken → ⊥) }
    {
        None
    }
}

// Takes the row at hand, which is the data row of that number, or tells its fault.
fn take_row<T: TakesRows>(
    alloc: Global,
    sheet: &Sheet<'_>,
    taker: &mut T,
    number: u64,
) -> Result<(), TableFault>
    requires { T.Keeps taker.old number }
    ensures takes { (start : T) (before : List Row) → T.Holds start taker.old before → number ≡ length before + 1
        → Finds (fault_of_row (T.file_of taker.old) (T.fault taker.old) before sheet.now.row)
        (λ _. T.Holds start taker.new (before ++ sheet.now.row ∷ [])) result }
    ensures few { OnOk result (number ≤ row_limit (T.file_of taker.old)) }
    ensures keeps { OnOk result (T.Keeps taker.new (number + 1)) }
    ensures same_fault { T.fault taker.new ≡ T.fault taker.old }
    ensures same_file { T.file_of taker.new ≡ T.file_of taker.old }
    ensures same_given { T.given taker.new ≡ T.given taker.old }
    ensures no_failure { HasFailed result → ⊥ }
{
    if let Some(taken) = taker.take_known(alloc, sheet, number) {
        return taken;
    }
    if let Some(fault) = row_fault(sheet, taker.file(), number) {
        return Err(fault);
    }
    taker.take(alloc, sheet, number)
}

// Takes all rows that are left, up to the first fault.
fn take_rows<T: TakesRows>(
    alloc: Global,
    sheet: &mut Sheet<'_>,
    taker: &mut T,
) -> Result<(), TableFault>
    requires { T.Keeps taker.old 1 }
    ensures takes { T.Holds taker.old taker.old []
        → Finds (first_fault (fault_of_row (T.file_of taker.old) (T.fault taker.old)) [] sheet.old.left)
        (λ _. T.Holds taker.old taker.new sheet.old.left) result }
    ensures keeps { OnOk result (KeepsTo T.Keeps taker.new (row_limit (T.file_of taker.old))) }
    ensures same_fault { T.fault taker.new ≡ T.fault taker.old }
    ensures same_file { T.file_of taker.new ≡ T.file_of taker.old }
    ensures same_given { T.given taker.new ≡ T.given taker.old }
    ensures no_failure { HasFailed result → ⊥ }
{
    let mut number = 0u64;
    while sheet.advance()? {
        number += 1;
        if let Err(fault) = take_row(alloc, sheet, taker, number) {
            return Err(fault);
        }
    }
    Ok(())
}

/// Takes all rows by the bytes of a file, up to its first fault.
pub(crate) fn take_bytes<T: TakesRows>(
    alloc: Global,
    bytes: &[u8],
    taker: &mut T,
) -> Result<(), TableFault>
    requires { T.Keeps taker.old 1 }
    ensures takes { T.Holds taker.old taker.old []
        → Finds (fault_in (T.file_of taker.old) (T.fault taker.old) (sheet_of (T.file_of taker.old) (rows bytes.now)))
        (λ _. T.Holds taker.old taker.new (rows_in (Some (sheet_of (T.file_of taker.old) (rows bytes.now))))) result }
    ensures keeps { OnOk result (KeepsTo T.Keeps taker.new (row_limit (T.file_of taker.old))) }
    ensures same_fault { T.fault taker.new ≡ T.fault taker.old }
    ensures same_file { T.file_of taker.new ≡ T.file_of taker.old }
    ensures same_given { T.given taker.new ≡ T.given taker.old }
    ensures no_failure { HasFailed result → ⊥ }
{
    let mut sheet = Sheet::open(alloc, bytes, taker.file())?;
    take_rows(alloc, &mut sheet, taker)
}

/// Reads the rows of a file of a folder into the taker, and says whether there is the file.
pub(crate) fn read_rows<F: Files, T: TakesRows>(
    alloc: Global,
    files: &mut F,
    dir: &str,
    buffer: &mut Bytes,
    taker: &mut T,
) -> Result<bool, TableFault>
    requires { T.Keeps taker.old 1 }
    ensures exact { IfSome (F.told files.old) (λ told. T.Holds taker.old taker.old []
        → FindsFile (T.file_of taker.old) (T.fault taker.old) (T.Holds taker.old taker.new) (sheets_in told dir.now)
        result) }
    ensures keeps { OnOk result (KeepsTo T.Keeps taker.new (row_limit (T.file_of taker.old))) }
    ensures same_fault { T.fault taker.new ≡ T.fault taker.old }
    ensures same_file { T.file_of taker.new ≡ T.file_of taker.old }
    ensures same_given { T.given taker.new ≡ T.given taker.old }
    ensures counts { Counts (HasFailed result) (F.faults files.old) (F.faults files.new) }
    ensures failed { IfFailed result (λ named. named ≡ T.file_of taker.old) }
    ensures same { F.told files.new ≡ F.told files.old }
{
    let file = taker.file();
    if !read_file(alloc, files, dir, file, buffer)? {
        return Ok(false);
    }
    match take_bytes(alloc, buffer.as_slice(), taker) {
        Ok(()) => Ok(true),
        Err(fault) => Err(fault),
    }
}
