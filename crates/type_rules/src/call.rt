// Calls, and bodies.

ghost use Rattle.std.specs.Prelude.{◌≡◌, map};
ghost use Rattle.std.specs.List.{list_any};
ghost use Rattle.type_rules.specs.Rules.{const_rule, builtin_one, builtin_two, builtin_rule, ask_each, macro_rule, is_optional};
ghost use Rattle.type_rules.specs.Rules.{lifted_type, has_options, function_rule, ask_streams, ask_options, lift_rule, stream_asked};
ghost use Rattle.type_rules.specs.Rules.{value_asked, written_asked, body_asked, body_rule};

use crate::asked::{BOOL, INT, UNIT, ask};
use crate::operation::ask_two;
use crate::rule::{Asked, Builtin, Clash, ExprType, Family, Setting};

const ANY_STREAM: Asked = Asked::StreamOf(Family::Any);

const ANY_OPTION: Asked = Asked::OptionOf(Family::Any);

/// What a name is of other parts than its own. No call that is checked has them.
const NOTHING: ExprType = ExprType::Stream(UNIT);

/// A literal at each event of a stream. Whether a literal stands there is a matter of its form.
pub fn const_rule(is_literal: bool, value: ExprType, stream: ExprType) -> Result<ExprType, Clash>
    ensures { result ≡ const_rule is_literal value stream }
{
    if is_literal {
        ask(ANY_STREAM, stream)?;
        Ok(ExprType::Stream(value.inner()))
    } else {
        Err(Clash {
            have: value,
            want: Asked::Literal,
        })
    }
}

fn builtin_one(name: Builtin, a: ExprType) -> Result<ExprType, Clash>
    ensures { result ≡ builtin_one name a }
{
    match name {
        Builtin::Time => {
            ask(ANY_STREAM, a)?;
            Ok(ExprType::Stream(INT))
        }
        Builtin::IsSome | Builtin::IsNone => {
            ask(ANY_OPTION, a)?;
            Ok(ExprType::Value(BOOL))
        }
        Builtin::GetSome => {
            ask(ANY_OPTION, a)?;
            Ok(ExprType::Value(a.inner()))
        }
        Builtin::Some => {
            ask(Asked::ValueOf(Family::Any), a)?;
            Ok(ExprType::Optional(a.inner()))
        }
        Builtin::Last | Builtin::Delay | Builtin::Merge | Builtin::Filter => Ok(NOTHING),
    }
}

fn builtin_two(name: Builtin, a: ExprType, b: ExprType) -> Result<ExprType, Clash>
    ensures { result ≡ builtin_two name a b }
{
    match name {
        Builtin::Last => {
            ask(ANY_STREAM, a)?;
            ask(ANY_STREAM, b)?;
            Ok(a)
        }
        Builtin::Delay => {
            ask(Asked::Exactly(ExprType::Stream(INT)), a)?;
            ask(ANY_STREAM, b)?;
            Ok(ExprType::Stream(UNIT))
        }
        Builtin::Merge => {
            ask_two(ANY_STREAM, a, b)?;
            Ok(a)
        }
        Builtin::Filter => {
            ask(ANY_STREAM, a)?;
            ask(Asked::Exactly(ExprType::Stream(BOOL)), b)?;
            Ok(a)
        }
        Builtin::Time | Builtin::IsSome | Builtin::IsNone | Builtin::GetSome | Builtin::Some => {
            Ok(NOTHING)
        }
    }
}

/// A name of the language, at its parts.
pub fn builtin_rule(name: Builtin, parts: &[ExprType]) -> Result<ExprType, Clash>
    ensures { result ≡ builtin_rule name parts.now }
{
    match parts {
        [] => Ok(NOTHING),
        [a] => builtin_one(name, *a),
        [a, b] => builtin_two(name, *a, *b),
        [_, _, _, ..] => Ok(NOTHING),
    }
}

/// Each argument is just what its parameter is.
fn ask_each(params: &[ExprType], args: &[ExprType]) -> Result<(), Clash>
    ensures { result ≡ ask_each params.now args.now }
{
    for (param, arg) in params.iter().zip(args.iter()) {
        ask(Asked::Exactly(*param), *arg)?;
    }
    Ok(())
}

/// A call of a macro.
pub fn macro_rule(params: &[ExprType], of: ExprType, args: &[ExprType]) -> Result<ExprType, Clash>
    ensures { result ≡ macro_rule params.now of args.now }
{
    ask_each(params, args)?;
    Ok(of)
}

impl ExprType {
    pub fn is_optional(self) -> bool
        ensures { result ≡ is_optional self }
    {
        matches!(self, ExprType::Optional(_))
    }

    /// A value is lifted where it stands among streams.
    fn lifted_type(self, at: Setting) -> ExprType
        ensures { result ≡ lifted_type at self }
    {
        match (at, self) {
            (Setting::Streams, ExprType::Value(of)) => ExprType::Stream(of),
            (Setting::Streams, ExprType::Stream(_)) => self,
            (Setting::Streams, ExprType::Optional(_)) => self,
            (Setting::Values, _) => self,
        }
    }
}

fn has_option(parts: &[ExprType]) -> bool
    ensures { result ≡ list_any is_optional parts.now }
{
    parts.iter().any(|part| part.is_optional())
}

fn has_options(params: &[ExprType], of: ExprType) -> bool
    ensures { result ≡ has_options params.now of }
{
    has_option(params) || of.is_optional()
}

/// Each argument is just what its parameter is, lifted where values are.
fn ask_each_lifted(at: Setting, params: &[ExprType], args: &[ExprType]) -> Result<(), Clash>
    ensures { result ≡ ask_each (map (lifted_type at) params.now) args.now }
{
    for (param, arg) in params.iter().zip(args.iter()) {
        ask(Asked::Exactly(param.lifted_type(at)), *arg)?;
    }
    Ok(())
}

/// A call of a value function. One without options is lifted where it is called among streams.
pub fn function_rule(
    at: Setting,
    params: &[ExprType],
    of: ExprType,
    args: &[ExprType],
) -> Result<ExprType, Clash>
    ensures { result ≡ function_rule at params.now of args.now }
{
    if has_options(params, of) {
        macro_rule(params, of, args)
    } else {
        ask_each_lifted(at, params, args)?;
        Ok(of.lifted_type(at))
    }
}

fn ask_streams(parts: &[ExprType]) -> Result<(), Clash>
    ensures { result ≡ ask_streams parts.now }
{
    for part in parts {
        ask(ANY_STREAM, *part)?;
    }
    Ok(())
}

/// Each stream's type stands in the option of its parameter.
fn ask_options(streams: &[ExprType], params: &[ExprType]) -> Result<(), Clash>
    ensures { result ≡ ask_options streams.now params.now }
{
    for (stream, param) in streams.iter().zip(params.iter()) {
        ask(Asked::Exactly(ExprType::Optional(stream.inner())), *param)?;
    }
    Ok(())
}

/// A `lift` of streams by a function of these parameters and this result.
pub fn lift_rule(streams: &[ExprType], params: &[ExprType], of: ExprType) -> Result<ExprType, Clash>
    ensures { result ≡ lift_rule streams.now params.now of }
{
    ask_streams(streams)?;
    ask_options(streams, params)?;
    ask(Asked::Exactly(ExprType::Optional(of.inner())), of)?;
    Ok(ExprType::Stream(of.inner()))
}

/// A stream is asked for: of a value or an option, one of its type.
fn stream_asked(of: ExprType) -> Result<(), Clash>
    ensures { result ≡ stream_asked of }
{
    ask(Asked::Exactly(ExprType::Stream(of.inner())), of)
}

/// A value is asked for: of a stream, one of its type.
fn value_asked(of: ExprType) -> Result<(), Clash>
    ensures { result ≡ value_asked of }
{
    match of {
        ExprType::Stream(inner) => Err(Clash {
            have: of,
            want: Asked::Exactly(ExprType::Value(inner)),
        }),
        ExprType::Value(_) | ExprType::Optional(_) => Ok(()),
    }
}

fn written_asked(written: Option<ExprType>, of: ExprType) -> Result<(), Clash>
    ensures { result ≡ written_asked written of }
{
    match written {
        None => Ok(()),
        Some(written) => ask(Asked::Exactly(written), of),
    }
}

fn body_asked(at: Setting, of: ExprType) -> Result<(), Clash>
    ensures { result ≡ body_asked at of }
{
    match at {
        Setting::Streams => stream_asked(of),
        Setting::Values => value_asked(of),
    }
}

/// A body: first it has the type that is written, where one is, and then it is a stream, or in a value function a value. The
/// expression of an output is a body without a written type.
pub fn body_rule(at: Setting, written: Option<ExprType>, of: ExprType) -> Result<(), Clash>
    ensures { result ≡ body_rule at written of }
{
    written_asked(written, of)?;
    body_asked(at, of)
}
