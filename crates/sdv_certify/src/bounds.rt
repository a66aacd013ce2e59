//! The bound form of each point of a script.

ghost use Rattle.std.specs.Prelude.{◌≡◌, ◌≢◌, ◌+◌, ◌<◌, ◌^◌, ◌++◌, ◌∷◌, [], map, max, reverse, All, IfOk, IfErr, OnOk, IsTrue, ◌↔◌, ◌≤◌};
ghost use Rattle.sdv_graph.specs.Moves.{statements_moves, ways_moves, statement_moves};
ghost use Rattle.sdv_script.specs.Shown.{shown};
ghost use Rattle.sdv_graph.specs.Tree.{statements_of, ways_of, statement_of, turns};
ghost use Rattle.sdv_certify.specs.Forms.{leads_to, either_form, form_statements, form_ways, form_before, forms_of_statements, forms_of_ways, forms_of_statement, forms_of, full_form, in_full, FormInLimits};
ghost use Rattle.sdv_script.specs.Rules.{max_number};
ghost use Rattle.sdv_certify.specs.Blocks.{blocks_of};
ghost use Rattle.sdv_certify.specs.LoopTurns.{StatementsTurn, WaysTurn, StatementTurns};

use crate::fault::CertifyFault;
use crate::form::Form;
use crate::parts::{
    END, before_loop, either_form, head_form, inside_too, last_turn, leads_to, sends_then,
};
use crate::spans::block_spans;
use sdv_graph::{Block, Cases, MAX_NUMBER, Stmt};
use sdv_script::Script;
use std::alloc::{AllocError, Global};

// The form is that of the next point.
fn push(forms: &mut Vec<Form>, form: Form) -> Result<Form, AllocError>
    ensures same { IfOk result (λ pushed. pushed ≡ form) }
    ensures items { OnOk result (forms.new.items ≡ forms.old.items ++ form ∷ []) }
{
    forms.push(form)?;
    Ok(form)
}

/// Appends the forms of the points of a list of statements, the last point first, and answers the form before it. `after`
/// is the form behind its end, and `out` that behind a `break`.
#[cycle(forms)]
fn put_block(
    alloc: Global,
    forms: &mut Vec<Form>,
    block: &Block<'_>,
    after: Option<Form>,
    out: Option<Form>,
) -> Result<Option<Form>, AllocError>
    requires few { statements_moves (statements_of block.now) + max (leads_to after).base (leads_to out).base
        < 2 ^ 128 }
    requires turns { StatementsTurn (statements_of block.now) }
    ensures before { IfOk result (λ before. in_full before
        ≡ in_full (form_statements (statements_of block.now) after out)) }
    ensures forms { OnOk result (map full_form forms.new.items
        ≡ map full_form forms.old.items ++ reverse
        (map full_form (forms_of_statements (statements_of block.now) after out))) }
{
    match block {
        Block::Empty => Ok(after),
        Block::Then(stmt, rest) => {
            let next = put_block(alloc, forms, rest, after, out)?;
            let form = put_stmt(alloc, forms, stmt, next, out)?;
            Ok(Some(form))
        }
    }
}

// The blocks of cases, in their order. A text of the size limit may have 13,000 of them, too many for a recursion.
fn blocks_of<'b, 'a>(alloc: Global, cases: &'b Cases<'a>) -> Result<Vec<&'b Block<'a>>, AllocError>
    ensures { IfOk result (λ blocks. map (λ b. statements_of b.now) blocks.items ≡ blocks_of (ways_of cases.now)) }
{
    let mut blocks = Vec::new(alloc);
    let mut rest = cases;
    loop {
        match rest {
            Cases::Else(block) => {
                blocks.push(&**block)?;
                return Ok(blocks);
            }
            Cases::Case(_, block, others) => {
                blocks.push(&**block)?;
                rest = &**others;
            }
        }
    }
}

#[cycle(forms)]
fn put_cases(
    alloc: Global,
    forms: &mut Vec<Form>,
    cases: &Cases<'_>,
    after: Option<Form>,
    out: Option<Form>,
) -> Result<Option<Form>, AllocError>
    requires few { ways_moves (ways_of cases.now) + max (leads_to after).base (leads_to out).base < 2 ^ 128 }
    requires turns { WaysTurn (ways_of cases.now) }
    ensures before { IfOk result (λ before. in_full before ≡ in_full (form_ways (ways_of cases.now) after out)) }
    ensures forms { OnOk result (map full_form forms.new.items
        ≡ map full_form forms.old.items ++ reverse (map full_form (forms_of_ways (ways_of cases.now) after out))) }
{
    let mut blocks = blocks_of(alloc, cases)?;
    let mut before = None;
    while let Some(block) = blocks.pop() {
        let one = put_block(alloc, forms, block, after, out)?;
        before = either_form(one, before);
    }
    Ok(before)
}

// Appends the forms of two blocks, those of the second one first, and then the form before both, which it answers.
#[cycle(forms)]
fn put_both(
    alloc: Global,
    forms: &mut Vec<Form>,
    a: &Block<'_>,
    b: &Block<'_>,
    after: Option<Form>,
    out: Option<Form>,
) -> Result<Form, AllocError>
    requires few { statements_moves (statements_of a.now) + statements_moves (statements_of b.now)
        + max (leads_to after).base (leads_to out).base < 2 ^ 128 }
    requires one { StatementsTurn (statements_of a.now) }
    requires other { StatementsTurn (statements_of b.now) }
    ensures before { IfOk result (λ before. full_form before ≡ full_form (leads_to
        (either_form (form_statements (statements_of a.now) after out)
        (form_statements (statements_of b.now) after out)))) }
    ensures forms { OnOk result (map full_form forms.new.items
        ≡ map full_form forms.old.items ++ reverse (map full_form (leads_to
        (either_form (form_statements (statements_of a.now) after out)
        (form_statements (statements_of b.now) after out))
        ∷ (forms_of_statements (statements_of a.now) after out
        ++ forms_of_statements (statements_of b.now) after out)))) }
{
    let other = put_block(alloc, forms, b, after, out)?;
    let one = put_block(alloc, forms, a, after, out)?;
    push(forms, leads_to(either_form(one, other)))
}

// Appends the forms of a loop of so many turns, those of its else block first, then those of its body, and then that at
// its head; answers the form before it.
#[cycle(forms)]
fn put_loop(
    alloc: Global,
    forms: &mut Vec<Form>,
    count: u16,
    a: &Block<'_>,
    b: &Block<'_>,
    after: Option<Form>,
    out: Option<Form>,
) -> Result<Form, AllocError>
    requires few { statement_moves (turns count (statements_of a.now) (statements_of b.now))
        + max (leads_to after).base (leads_to out).base < 2 ^ 128 }
    requires turns { StatementTurns (turns count (statements_of a.now) (statements_of b.now)) }
    ensures before { IfOk result (λ before. full_form before
        ≡ full_form (form_before (turns count (statements_of a.now) (statements_of b.now)) after out)) }
    ensures forms { OnOk result (map full_form forms.new.items
        ≡ map full_form forms.old.items ++ reverse (map full_form
        (forms_of_statement (turns count (statements_of a.now) (statements_of b.now)) after out))) }
{
    let other = put_block(alloc, forms, b, after, out)?;
    let body = block_spans(a);
    let last = last_turn(body, leads_to(other), leads_to(after));
    let head = head_form(body, last);
    put_block(alloc, forms, a, Some(head), inside_too(after))?;
    push(forms, head)?;
    Ok(before_loop(count, body, last))
}

#[cycle(forms)]
fn put_stmt(
    alloc: Global,
    forms: &mut Vec<Form>,
    stmt: &Stmt<'_>,
    after: Option<Form>,
    out: Option<Form>,
) -> Result<Form, AllocError>
    requires few { statement_moves (statement_of stmt.now) + max (leads_to after).base (leads_to out).base < 2 ^ 128 }
    requires turns { StatementTurns (statement_of stmt.now) }
    ensures before { IfOk result (λ before. full_form before
        ≡ full_form (form_before (statement_of stmt.now) after out)) }
    ensures forms { OnOk result (map full_form forms.new.items
        ≡ map full_form forms.old.items ++ reverse
        (map full_form (forms_of_statement (statement_of stmt.now) after out))) }
{
    match stmt {
        Stmt::Send(_, cases) => {
            let next = put_cases(alloc, forms, cases, after, out)?;
            push(forms, sends_then(next))
        }
        Stmt::Phase(_, a, b) | Stmt::If(_, a, b) => put_both(alloc, forms, a, b, after, out),
        Stmt::Loop(turns, a, b) => put_loop(alloc, forms, *turns, a, b, after, out),
        Stmt::Let(_) | Stmt::Set(_) | Stmt::Clear(_) | Stmt::BusLines(_) => {
            push(forms, leads_to(after))
        }
        Stmt::Break => push(forms, leads_to(out)),
        Stmt::Done | Stmt::Fault(_) => push(forms, END),
    }
}

// No number is above the greatest of a certificate.
fn are_few(numbers: &[u128]) -> bool
    ensures { IsTrue result ↔ All (λ n. n ≤ max_number) numbers.now }
{
    for number in numbers {
        if *number > u128::from(MAX_NUMBER) {
            return false;
        }
    }
    true
}

fn in_limits(form: &Form) -> bool
    ensures { IsTrue result ↔ FormInLimits form.now }
{
    form.base <= u128::from(MAX_NUMBER) && are_few(&form.each)
}

// The same form. The definitions keep its coefficients as a list; the copy shows that they are four.
#[tactic(auto, using(crate::proofs::FormLaws::first_four))]
fn whole(form: &Form) -> Form
    ensures { result ≡ full_form form.now }
{
    Form {
        base: form.base,
        each: [form.each[0], form.each[1], form.each[2], form.each[3]],
    }
}

// The forms, as far as all are within the limits.
fn within_limits(alloc: Global, forms: &[Form]) -> Result<Vec<Form>, CertifyFault>
    ensures forms { IfOk result (λ within. within.items ≡ map full_form forms.now) }
    ensures limits { IfOk result (λ within. All FormInLimits within.items) }
    ensures refused { IfErr result (λ e. e ≢ CertifyFault.Memory → e ≡ CertifyFault.TooMany) }
    ensures too_many { IfErr result (λ e. e ≡ CertifyFault.TooMany → All FormInLimits (map full_form forms.now) → ⊥) }
{
    let mut within = Vec::new(alloc);
    for form in forms {
        let form = whole(form);
        if !in_limits(&form) {
            return Err(CertifyFault::TooMany);
        }
        push(&mut within, form)?;
    }
    Ok(within)
}

/// The bound form of each point of a script, in the order of the points: how many commands are sent from there on, at
/// most, by the syntax alone.
///
/// # Errors
///
/// `TooMany` where a number of a form is above 2^40, and `Memory`.
pub fn bound_forms(alloc: Global, script: &Script<'_>) -> Result<Vec<Form>, CertifyFault>
    ensures forms { IfOk result (λ forms. forms.items ≡ map full_form (forms_of (shown script.now).body)) }
    ensures limits { IfOk result (λ forms. All FormInLimits forms.items) }
    ensures refused { IfErr result (λ e. e ≢ CertifyFault.Memory → e ≡ CertifyFault.TooMany) }
    ensures too_many { IfErr result (λ e. e ≡ CertifyFault.TooMany
        → All FormInLimits (map full_form (forms_of (shown script.now).body)) → ⊥) }
{
    block_forms(alloc, script.body())
}

/// The same of the points of a list of statements, outside of which there is no loop.
///
/// # Errors
///
/// Those of `bound_forms`.
pub fn block_forms(alloc: Global, block: &Block<'_>) -> Result<Vec<Form>, CertifyFault>
    requires few { statements_moves (statements_of block.now) < 2 ^ 128 }
    requires turns { StatementsTurn (statements_of block.now) }
    ensures forms { IfOk result (λ forms. forms.items ≡ map full_form (forms_of (statements_of block.now))) }
    ensures limits { IfOk result (λ forms. All FormInLimits forms.items) }
    ensures refused { IfErr result (λ e. e ≢ CertifyFault.Memory → e ≡ CertifyFault.TooMany) }
    ensures too_many { IfErr result (λ e. e ≡ CertifyFault.TooMany
        → All FormInLimits (map full_form (forms_of (statements_of block.now))) → ⊥) }
{
    let mut forms = Vec::new(alloc);
    put_block(alloc, &mut forms, block, None, None)?;
    forms.reverse();
    within_limits(alloc, &forms)
}
