//! The pass that finds the facts at each slot: one visit a slot, in ascending order.
ghost use Rattle.std.specs.Prelude.{◌≡◌, ◌+◌, ℕ, List, vec_len, pos, IfOk, IfErr, Some, None};
ghost use Rattle.bpf_insn.specs.Program.{slot_count};
ghost use Rattle.bpf_insn.specs.Rule.{IsLowest};
ghost use Rattle.bpf_verify.specs.declared.tag.Tag.{Tag};
ghost use Rattle.bpf_verify.specs.Paths.{targets, IsShown};
ghost use Rattle.bpf_verify.specs.Table.{known, known_in};
ghost use Rattle.bpf_verify.specs.inner.Pass.{IsGoodTarget};
ghost use Rattle.bpf_verify.specs.inner.Pass.{IsMerged, IsEntry, IsClean, IsExact, IsExactBelow, ExplainsTyping, Adds, AddsAll};
ghost use Rattle.bpf_verify.specs.inner.Pass.{IsVisit, IsLeading};

use crate::error::VerifyError;
use crate::facts::Facts;
use crate::tag::Tag;
use bpf_insn::{CodeRule, Fault, Insn, Program};
use std::alloc::Global;

/// The facts at each slot of a program that has no slot fault, or the first fault that paths show,
/// or `Memory`.
pub(crate) fn typed(
    alloc: Global,
    program: &Program,
    entry: [Tag; 11],
) -> Result<Vec<Option<Facts>>, VerifyError>
    requires clean { IsClean program.now }
    requires entry { IsEntry entry }
    ensures exact { IfOk result (λ table. IsExact program.now entry table.items) }
    ensures len { IfOk result (λ table. vec_len table ≡ slot_count program.now) }
    ensures refused { IfErr result (ExplainsTyping program.now entry) }
{
    // All of it at once. The pass itself allocates nothing.
    let Ok(mut table) = vec![in alloc; None; program.slots() as usize] else {
        return Err(VerifyError::Memory);
    };
    table[0] = Some(Facts::at_entry(entry));
    // One pass suffices: jumps lead forward, so all paths to a slot were followed before its turn.
    for slot in 0..program.slots() {
        if let Err(rule) = visit(program, &mut table, slot) {
            return Err(VerifyError::Fault(Fault { slot, rule }));
        }
    }
    Ok(table)
}

/// Visits one slot. If some path leads there, the facts after its instruction go to the slots that
/// may follow, or the instruction breaks a rule, and the lowest such rule is returned.
fn visit(program: &Program, table: &mut Vec<Option<Facts>>, slot: u64) -> Result<(), CodeRule>
    requires { IsVisit program.now (vec_len table.old) slot }
    ensures len { vec_len table.new ≡ vec_len table.old }
    ensures exact { IfOk result (λ _. (entry : List Tag) → IsEntry entry →
        IsExactBelow slot program.now entry table.old.items → IsExactBelow (slot + 1) program.now entry table.new.items) }
    ensures refused { IfErr result (λ rule. (entry : List Tag) →
        IsExactBelow slot program.now entry table.old.items → IsLowest (IsShown program.now entry slot) rule) }
{
    let Some(insn) = program.insn_at(slot) else {
        return Ok(());
    };
    // No path leads here, so the slot isn't typed, and its instruction may break any rule of V11 to
    // V16.
    let Some(facts) = table[slot as usize] else {
        return Ok(());
    };
    if let Some(rule) = facts.refusal(*insn) {
        return Err(rule);
    }
    lead_on(program, table, slot, *insn, &facts.after(*insn));
    Ok(())
}

/// Joins the facts after an instruction to the facts at each slot that may follow.
fn lead_on(program: &Program, table: &mut Vec<Option<Facts>>, slot: u64, insn: Insn, facts: &Facts)
    requires { IsLeading program.now (vec_len table.old) slot insn }
    ensures len { vec_len table.new ≡ vec_len table.old }
    ensures adds { AddsAll (targets slot insn) (known facts.now) table.old.items table.new.items }
{
    let next = slot as i64 + 1;
    match insn {
        Insn::Exit => {}
        Insn::Ja { offset } => lead(program, table, slot, next + i64::from(offset), facts),
        Insn::Ja32 { offset } => lead(program, table, slot, next + i64::from(offset), facts),
        // Both, whatever the condition: every path counts, whether or not some operands take it.
        Insn::Jump { offset, .. } => {
            lead(program, table, slot, next, facts);
            lead(program, table, slot, next + i64::from(offset), facts);
        }
        Insn::Wide { .. } => lead(program, table, slot, next + 1, facts),
        _ => lead(program, table, slot, next, facts),
    }
}

/// Joins facts to the facts at one slot.
fn lead(program: &Program, table: &mut Vec<Option<Facts>>, slot: u64, to: i64, facts: &Facts)
    requires len { vec_len table.old ≡ slot_count program.now }
    requires good { IsGoodTarget program.now slot to }
    ensures len { vec_len table.new ≡ vec_len table.old }
    ensures adds { Adds to (known facts.now) table.old.items table.new.items }
{
    // A slot of the program, since the slot pass has checked every target.
    let to = to.unsigned_abs() as usize;
    table[to] = Some(merged(table[to], facts));
}

/// The facts where a path gets to a slot: it is the first, or joins the facts there.
fn merged(there: Option<Facts>, facts: &Facts) -> Facts
    ensures { IsMerged (known_in (Some there)) (known facts.now) (known result) }
{
    match there {
        Some(there) => there.join(facts),
        None => *facts,
    }
}
