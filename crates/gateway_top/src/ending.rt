//! How a run ends early: a line on standard error, and a status. The definitions are those of `specs/Runs.antt`.
ghost use Rattle.std.specs.Prelude.{◌≡◌, ◌≤◌, ◌++◌, codes, decimal, IsErr};
ghost use Rattle.gw_base.specs.Count.{Rose, Counts};
ghost use Rattle.gw_base.specs.Told.{PutsUnless};
ghost use Rattle.file_commands.specs.Exits.{status_of, text_of};
ghost use Rattle.gateway_top.specs.Runs.{line};

use file_commands::Exit;
use gw_base::{Failed, ShortText, Sink, put_all};

/// The words are no command's.
const BAD_WORDS: u8 = 2;

// Writes a text as the program's line on standard error.
fn put_line<E: Sink>(err: &mut E, text: &str) -> Result<(), Failed>
    ensures front { PutsUnless (Rose (E.faults err.old) (E.faults err.new)) (E.told err.old) (E.told err.new)
        (line text.now) }
    ensures counts { Counts (IsErr result) (E.faults err.old) (E.faults err.new) }
    ensures others { E.beside err.new ≡ E.beside err.old }
{
    put_all(err, b"gateway: ")?;
    put_all(err, text.as_bytes())?;
    put_all(err, b"\n")
}

/// Ends a run with an exit's line and status. The status stays where the line can't be written.
pub fn ended<E: Sink>(err: &mut E, exit: &Exit) -> u8
    ensures status { result ≡ status_of exit.now }
    ensures front { PutsUnless (Rose (E.faults err.old) (E.faults err.new)) (E.told err.old) (E.told err.new)
        (line (text_of exit.now)) }
    ensures counts { E.faults err.old ≤ E.faults err.new }
    ensures others { E.beside err.new ≡ E.beside err.old }
{
    let _ = put_line(err, exit.text());
    exit.status()
}

/// Ends a run of words that are no command's from that word on. Takes no memory.
pub fn turned_away<E: Sink>(err: &mut E, at: u64) -> u8
    ensures status { result ≡ 2 }
    ensures front { PutsUnless (Rose (E.faults err.old) (E.faults err.new)) (E.told err.old) (E.told err.new)
        (line (codes "bad word " ++ decimal at)) }
    ensures counts { E.faults err.old ≤ E.faults err.new }
    ensures others { E.beside err.new ≡ E.beside err.old }
{
    let _ = put_line(err, ShortText::of_number("bad word ", at).as_str());
    BAD_WORDS
}
