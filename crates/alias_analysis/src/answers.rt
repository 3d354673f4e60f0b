// What triggers answer about updates, kept from one set of updates to the next.

ghost use Rattle.std.specs.Prelude.{◌≡◌, ◌↔◌, ◌<◌, length, map, IfOk, IsTrue};
ghost use Rattle.translation_order.specs.Order.{AreOfSteps};
ghost use Rattle.trigger_rules.specs.Question.{Implies};
ghost use Rattle.trigger_formulas.specs.inner.Kept.{AreTriggersOf};
ghost use Rattle.alias_paths.specs.inner.Kept.{AreUses};
ghost use Rattle.alias_analysis.specs.inner.Answers.{Holds, IsKnown, IsRow, AreRows, answer_at};
ghost use Rattle.alias_nears.specs.inner.Contents.{IsBeside};

use alias_nears::asked::{asked_implied, content_links, variables};
use alias_nears::kept::both;
use alias_paths::links::Links;
use alias_paths::numbers::{Numbers, one_of};
use alias_paths::reach::reached;
use alias_paths::uses::{Uses, is_variable};
use flat_core::flat::Flat;
use std::alloc::Global;
use std::marker::Model;
use trigger_formulas::triggers::Triggers;
use tsl_value::ids::EqId;
use tsl_value::memory::NoMemory;

/// What is asked of an update and another equation.
#[derive(Clone, Copy)]
enum Question {
    /// Whether the equation has an event wherever the update has one.
    Implied,
    /// Whether the equation is a variable that may have an event together with the update.
    Beside,
}

/// A system with its triggers, and with their answers about each update and what its content may come to. Contracts see the system.
///
/// Each answer is asked for many sets of updates. For an equation that is not an update the row is empty, and where nothing is known of
/// two equations the triggers are asked.
#[derive(Drop)]
pub struct Answers<'a> {
    flat: &'a Flat,
    triggers: &'a Triggers,
    implied: Vec<Vec<Option<bool>>>,
    beside: Vec<Vec<Option<bool>>>,
}

impl<'a> Model for Answers<'a> {
    ghost use Rattle.flat_core.specs.System.{System};
    ghost use Rattle.lift_func.specs.contracts.body.Body as body;
    ghost use Rattle.std.specs.Coded.{codes};

    ghost Value = { System };

    ghost coded = { Prim.hlevel (codes, body.the_row.coded) };

    ghost view = { λ a. a.flat.now };

    ghost use Rattle.std.specs.Prelude.{map};
    ghost use Rattle.alias_analysis.specs.inner.Answers.{AreAnswers};

    ghost invariant = { λ a.
        AreAnswers a.flat.now a.triggers.now (map (λ v. v.items) a.implied.items) (map (λ v. v.items) a.beside.items) };
}

fn is_beside(
    alloc: Global,
    flat: &Flat,
    triggers: &Triggers,
    update: EqId,
    id: EqId,
) -> Result<bool, NoMemory>
    requires triggers { AreTriggersOf triggers.now flat.now }
    requires update { update < length flat.now.equations }
    requires there { id < length flat.now.equations }
    ensures { IfOk result (λ r. IsTrue r ↔ IsBeside flat.now update id) }
{
    if !is_variable(flat, id) {
        return Ok(false);
    }
    let together = triggers.together(alloc, update, id)?;
    Ok(together)
}

/// The answer of the triggers.
fn asked(
    alloc: Global,
    flat: &Flat,
    triggers: &Triggers,
    question: Question,
    update: EqId,
    id: EqId,
) -> Result<bool, NoMemory>
    requires triggers { AreTriggersOf triggers.now flat.now }
    requires update { update < length flat.now.equations }
    requires there { id < length flat.now.equations }
    ensures { IfOk result (λ r. IsTrue r ↔ Holds question flat.now update id) }
{
    match question {
        Question::Implied => triggers.implies(alloc, update, id),
        Question::Beside => is_beside(alloc, flat, triggers, update, id),
    }
}

/// The answer, if it is wanted.
fn asked_if(
    alloc: Global,
    flat: &Flat,
    triggers: &Triggers,
    question: Question,
    update: EqId,
    id: EqId,
    wanted: bool,
) -> Result<Option<bool>, NoMemory>
    requires triggers { AreTriggersOf triggers.now flat.now }
    requires update { update < length flat.now.equations }
    requires there { id < length flat.now.equations }
    ensures { IfOk result (IsKnown (Holds question flat.now update id)) }
{
    if !wanted {
        return Ok(None);
    }
    let answer = asked(alloc, flat, triggers, question, update, id)?;
    Ok(Some(answer))
}

/// The answers about an update and each of these equations.
fn row(
    alloc: Global,
    flat: &Flat,
    triggers: &Triggers,
    question: Question,
    update: EqId,
    wanted: &Numbers,
) -> Result<Vec<Option<bool>>, NoMemory>
    requires triggers { AreTriggersOf triggers.now flat.now }
    requires update { update < length flat.now.equations }
    requires one_each { length wanted.now ≡ length flat.now.equations }
    ensures { IfOk result (λ row. IsRow question flat.now update row.items) }
{
    let mut row = Vec::new(alloc);
    for number in 0..flat.count() {
        let id = EqId::new(number);
        let answer = asked_if(
            alloc,
            flat,
            triggers,
            question,
            update,
            id,
            wanted.has(number),
        )?;
        row.push(answer)?;
    }
    Ok(row)
}

/// The answers about an equation and which of these its content may come to, if it is an update that runs.
fn row_of(
    alloc: Global,
    flat: &Flat,
    triggers: &Triggers,
    question: Question,
    links: &Links,
    asked: &Numbers,
    id: EqId,
) -> Result<Vec<Option<bool>>, NoMemory>
    requires triggers { AreTriggersOf triggers.now flat.now }
    requires there { id < length flat.now.equations }
    requires asked { length asked.now ≡ length flat.now.equations }
    requires links { AreOfSteps (length flat.now.equations) links.now }
    ensures { IfOk result (λ row. IsRow question flat.now id row.items) }
{
    if !flat.is_running_update(id) {
        return Ok(Vec::new(alloc));
    }
    let one = one_of(alloc, flat.count() as usize, id.get(), true)?;
    let linked = reached(alloc, links, &one)?;
    let wanted = both(alloc, asked, &linked)?;
    row(alloc, flat, triggers, question, id, &wanted)
}

/// The answers about all updates and each of these.
fn rows(
    alloc: Global,
    flat: &Flat,
    triggers: &Triggers,
    question: Question,
    links: &Links,
    asked: &Numbers,
) -> Result<Vec<Vec<Option<bool>>>, NoMemory>
    requires triggers { AreTriggersOf triggers.now flat.now }
    requires asked { length asked.now ≡ length flat.now.equations }
    requires links { AreOfSteps (length flat.now.equations) links.now }
    ensures { IfOk result (λ rows. AreRows question flat.now (map (λ v. v.items) rows.items)) }
{
    let mut rows = Vec::new(alloc);
    for number in 0..flat.count() {
        let id = EqId::new(number);
        rows.push(row_of(alloc, flat, triggers, question, links, asked, id)?)?;
    }
    Ok(rows)
}

/// What is known of two equations.
fn known(rows: &[Vec<Option<bool>>], a: EqId, b: EqId) -> Option<bool>
    ensures { result ≡ answer_at (map (λ v. v.items) rows.now) a b }
{
    match rows.get(a.get() as usize) {
        Some(row) => match row.get(b.get() as usize) {
            Some(answer) => *answer,
            None => None,
        },
        None => None,
    }
}

impl<'a> Answers<'a> {
    /// Asks about each update and all that its content may come to, whether it is implied only where that is asked for some set.
    pub fn of(
        alloc: Global,
        flat: &'a Flat,
        triggers: &'a Triggers,
        uses: &Uses,
    ) -> Result<Answers<'a>, NoMemory>
        requires triggers { AreTriggersOf triggers.now flat.now }
        requires uses { AreUses flat.now uses.now }
        ensures { IfOk result (λ a. a ≡ flat.now) }
    {
        let links = content_links(alloc, flat, uses)?;
        let merged = asked_implied(alloc, flat, uses)?;
        let implied = rows(alloc, flat, triggers, Question::Implied, &links, &merged)?;
        let variables = variables(alloc, flat)?;
        let beside = rows(alloc, flat, triggers, Question::Beside, &links, &variables)?;
        Ok(Answers {
            flat,
            triggers,
            implied,
            beside,
        })
    }

    /// Whether an equation has an event wherever the update has one, as far as few atoms show.
    pub fn implies(&self, alloc: Global, update: EqId, id: EqId) -> Result<bool, NoMemory>
        requires update { update < length self.now.equations }
        requires there { id < length self.now.equations }
        ensures { IfOk result (λ r. IsTrue r ↔ Implies self.now update id) }
    {
        match known(&self.implied, update, id) {
            Some(answer) => Ok(answer),
            None => asked(
                alloc,
                self.flat,
                self.triggers,
                Question::Implied,
                update,
                id,
            ),
        }
    }

    /// Whether an equation is a variable that may have an event together with the update.
    pub fn is_beside(&self, alloc: Global, update: EqId, id: EqId) -> Result<bool, NoMemory>
        requires update { update < length self.now.equations }
        requires there { id < length self.now.equations }
        ensures { IfOk result (λ r. IsTrue r ↔ IsBeside self.now update id) }
    {
        match known(&self.beside, update, id) {
            Some(answer) => Ok(answer),
            None => asked(
                alloc,
                self.flat,
                self.triggers,
                Question::Beside,
                update,
                id,
            ),
        }
    }
}
