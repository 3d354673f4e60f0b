// The trigger formula of an equation.

ghost use Rattle.std.specs.Prelude.{◌≡◌, IfOk};
ghost use Rattle.trigger_starts.specs.inner.Rules.{pair_of, filter_by, last_by, lift_by, rule_of, looks_back};

use flat_core::equation::{Equation, Op};
use flat_core::lists::Args;
use tsl_value::ids::EqId;
use tsl_value::memory::NoMemory;

/// When an equation has an event, by the events of its arguments at that time.
#[derive(Drop)]
pub enum Rule {
    Never,
    /// At 0.
    Start,
    /// No argument decides it.
    Own,
    All { args: Args },
    Any { args: Args },
    /// Where any argument has one it may have one.
    AnyAndOwn { args: Args },
    /// Where both have one, and the condition has the event true.
    Filter { events: EqId, condition: EqId },
    /// After 0 where the second argument has one, which may be before the first had any.
    Last { values: EqId, trigger: EqId },
    /// After 0, and no argument decides it.
    Delay,
}

/// The arguments, if there are just two.
fn pair(arguments: &[EqId]) -> Option<(EqId, EqId)>
    ensures { result ≡ pair_of arguments.now }
{
    let Some((first, rest)) = arguments.split_first() else {
        return None;
    };
    let Some((second, none)) = rest.split_first() else {
        return None;
    };
    match none.split_first() {
        Some(_) => None,
        None => Some((*first, *second)),
    }
}

fn filter(args: &Args) -> Rule
    ensures { result ≡ filter_by (pair_of args.now) }
{
    match pair(args.ids()) {
        Some((events, condition)) => Rule::Filter { events, condition },
        None => Rule::Never,
    }
}

fn last(args: &Args) -> Rule
    ensures { result ≡ last_by (pair_of args.now) }
{
    match pair(args.ids()) {
        Some((values, trigger)) => Rule::Last { values, trigger },
        None => Rule::Never,
    }
}

fn all(args: &Args) -> Result<Rule, NoMemory>
    ensures { IfOk result (λ r. r ≡ Rule.All args.now) }
{
    Ok(Rule::All { args: args.copy()? })
}

fn any(args: &Args) -> Result<Rule, NoMemory>
    ensures { IfOk result (λ r. r ≡ Rule.Any args.now) }
{
    Ok(Rule::Any { args: args.copy()? })
}

fn lift(args: &Args, strict: bool) -> Result<Rule, NoMemory>
    ensures { IfOk result (λ r. r ≡ lift_by strict args.now) }
{
    if strict {
        all(args)
    } else {
        Ok(Rule::AnyAndOwn { args: args.copy()? })
    }
}

/// The rule of an equation.
pub fn rule_of(equation: &Equation) -> Result<Rule, NoMemory>
    ensures { IfOk result (λ r. r ≡ rule_of equation.now) }
{
    let args = &equation.args;
    match &equation.op {
        Op::Input => Ok(Rule::Own),
        Op::Nil => Ok(Rule::Never),
        Op::Unit => Ok(Rule::Start),
        Op::Empty => Ok(Rule::Start),
        Op::Lift { body: _, strict } => lift(args, *strict),
        Op::Any => any(args),
        Op::Merge => any(args),
        Op::Filter => Ok(filter(args)),
        Op::Last => Ok(last(args)),
        Op::Delay => Ok(Rule::Delay),
        _ => all(args),
    }
}

impl Rule {
    /// Whether it looks back, so that it has no event at 0.
    pub fn looks_back(&self) -> bool
        ensures { result ≡ looks_back self.now }
    {
        match self {
            Rule::Never => false,
            Rule::Start => false,
            Rule::Own => false,
            Rule::All { args: _ } => false,
            Rule::Any { args: _ } => false,
            Rule::AnyAndOwn { args: _ } => false,
            Rule::Filter {
                events: _,
                condition: _,
            } => false,
            Rule::Last {
                values: _,
                trigger: _,
            } => true,
            Rule::Delay => true,
        }
    }
}
