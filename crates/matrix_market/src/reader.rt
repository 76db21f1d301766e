//! Text to matrices.
ghost use Rattle.std.specs.Prelude.{ℕ, List, IfErr, IfOk};
ghost use Rattle.matrix_market.specs.Market.{IsTextOf};
ghost use Rattle.matrix_market.specs.Refusal.{ExplainsRefusal, IsOnlyMatrix};
ghost use Rattle.matrix_market.specs.inner.Gathering.{Begun, IsAnswer};
ghost use Rattle.matrix_market.specs.inner.Refusal.{NamesFault};
ghost use Rattle.matrix_market.specs.inner.Repeating.{IsRepeating};

use crate::cursor::Cursor;
use crate::gather::{Gathering, gather};
use crate::kinds::{Header, read_banner, read_size};
use crate::lines::{Content, MOST_BYTES, next_content};
use crate::repeat::line_of_repeat;
use crate::rule::{MarketError, MarketRule};
use csr_store::{Matrix, RepeatedPositions};
use std::alloc::Global;
use text_words::first_line;

/// The matrix that a text denotes.
///
/// A text that breaks a rule is refused with the rule and the number of the first line that breaks
/// one; on that line `LineTooLong` is checked first, and then the rules in their order. `NoRoom` and
/// `Memory` each have a refused request for memory, `Memory` only of a text that breaks no rule.
pub fn read(alloc: Global, text: &[u8]) -> Result<Matrix, MarketError>
    ensures text { IfOk result (λ m. IsTextOf text.now m) }
    ensures only { IfOk result (λ m. IsOnlyMatrix text.now m) }
    ensures refusal { IfErr result (ExplainsRefusal text.now) }
{
    read_text(alloc, text)
}

/// The same, with the inner contract, from which that of `read` follows.
fn read_text(alloc: Global, text: &[u8]) -> Result<Matrix, MarketError>
    ensures ok { IfOk result (λ m. IsTextOf text.now m) }
    ensures err { IfErr result (λ e. NamesFault text.now e) }
{
    match read_header(text) {
        Ok((header, start)) => read_entries(alloc, header, start),
        Err(fault) => Err(fault),
    }
}

/// What the lines before the entries say, and where the entries begin.
fn read_header(text: &[u8]) -> Result<(Header, Cursor<'_>), MarketError>
    ensures begun { IfOk result (λ p. Begun text.now p.0 p.1) }
    ensures err { IfErr result (λ e. NamesFault text.now e) }
{
    // For the prover, which knows that a length is below 2^63 only where it is read. `Cursor` needs
    // it.
    let for_proof_length = text.len();
    let _ = for_proof_length;
    // A text without a line lacks line 1.
    let Some((first, rest)) = first_line(text) else {
        return Err(MarketError::Fault {
            rule: MarketRule::MalformedBanner,
            line: 1,
        });
    };
    // M11 comes first on every line.
    if first.len() > MOST_BYTES {
        return Err(MarketError::Fault {
            rule: MarketRule::LineTooLong,
            line: 1,
        });
    }
    let banner = match read_banner(first) {
        Err(rule) => return Err(MarketError::Fault { rule, line: 1 }),
        Ok(banner) => banner,
    };
    match next_content(Cursor { rest, at: 1 }) {
        // M3 for a missing size line, at the line after the last.
        Content::End(at) => Err(MarketError::Fault {
            rule: MarketRule::MalformedSize,
            line: at + 1,
        }),
        Content::TooLong(at) => Err(MarketError::Fault {
            rule: MarketRule::LineTooLong,
            line: at,
        }),
        Content::Line(line, start) => match read_size(banner.symmetric, line) {
            Err(rule) => Err(MarketError::Fault {
                rule,
                line: start.at,
            }),
            Ok(size) => Ok((Header { banner, size }, start)),
        },
    }
}

/// Reads as many entries as the size line declares. A fault is reported without further memory, and
/// so is a position that is given again before it.
fn read_entries(alloc: Global, header: Header, start: Cursor<'_>) -> Result<Matrix, MarketError>
    ensures { IsAnswer header start.entry result }
{
    let Gathering { list, fault } = match gather(alloc, header, start) {
        Ok(gathering) => gathering,
        Err(refused) => return Err(MarketError::NoRoom(refused)),
    };
    match fault {
        // The entries before the fault are in the list. If a position repeats among them, that line
        // comes first.
        Some(fault) => match list.repeats() {
            Some(repeats) => Err(fault_of_repeat(header, start, repeats)),
            None => Err(fault),
        },
        // No other fault, so the list may take memory to become a matrix.
        None => match list.settle() {
            Ok(Ok(matrix)) => Ok(matrix),
            Ok(Err(repeats)) => Err(fault_of_repeat(header, start, repeats)),
            Err(refused) => Err(MarketError::Memory(refused)),
        },
    }
}

/// The fault of the first line that repeats a position. A list was read from here on, in which
/// these positions repeat.
fn fault_of_repeat(header: Header, start: Cursor<'_>, repeats: RepeatedPositions) -> MarketError
    requires { IsRepeating header start repeats }
    ensures { (text : List ℕ) → Begun text header start.entry → NamesFault text result }
{
    MarketError::Fault {
        rule: MarketRule::PositionGivenTwice,
        line: line_of_repeat(header, start, repeats),
    }
}
