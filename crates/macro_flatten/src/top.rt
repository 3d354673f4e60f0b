// The equations of the items of a specification.

ghost use Rattle.std.specs.Prelude.{◌≡◌, ◌+◌, ◌<◌, ◌≤◌, ◌^◌, false, ◌∷◌, [], ◌++◌, length, map, MatchOption, Some, None, IfOk, IfErr, OnOk};
ghost use Rattle.std.specs.Prelude.{slice_get};
ghost use Rattle.flat_core.specs.Typed.{unit_type};
ghost use Rattle.flat_core.specs.declared.limits.TheConstants.{MOST_EQUATIONS};
ghost use Rattle.syntax_tree.specs.Tree as tree;
ghost use Rattle.syntax_tree.specs.inner.OneLevel.{item_of};
ghost use Rattle.expr_types.specs.inner.Shown.{kinds_of};
ghost use Rattle.stream_constructs.specs.declared.maker.MakeFault.TheVariants as fault;
ghost use Rattle.stream_constructs.specs.Limits.{IsRefusal};
ghost use Rattle.stream_constructs.specs.Construct as construct;
ghost use Rattle.stream_constructs.specs.Made.{equations_for, stream_of, with_equations};
ghost use Rattle.spec_meaning.specs.Flat.{event_type};
ghost use Rattle.checked_spec.specs.inner.Formed.{is_stream};
ghost use Rattle.equation_marks.specs.inner.Counters.{HasNames};
ghost use Rattle.equation_marks.specs.Marks.{output_marks, printed_marks, stream_marks};
ghost use Rattle.macro_flatten.specs.inner.Answers.{IsRefusedAfter};
ghost use Rattle.macro_flatten.specs.inner.Items.{AreForeseen, AreOutputsMade, AreStreamsMade, CanPrint, HasEventType, HaveEventTypes};
ghost use Rattle.macro_flatten.specs.inner.Items.{IsPrinted, IsReady, IsStreamDefinition, IsStreamMade, IsTopHere};
ghost use Rattle.spec_meaning.specs.Inputs.{declared_inputs};
ghost use Rattle.macro_flatten.specs.inner.Items.{input_streams, items_in, kinds_in, named_unit};

use crate::call::ending_at;
use crate::context::{Context, Here};
use definition_cycles::limits::MOST_CALLS;
use equation_marks::body::{is_only_name, result_of};
use equation_marks::count::Counter;
use expr_types::around::Around;
use flat_core::equation::Output;
use name_check::builtin::is_unit;
use name_check::scope::Scope;
use std::alloc::Global;
use stream_constructs::construct::Stream;
use stream_constructs::maker::{MakeFault, Maker};
use syntax_tree::tree::{DefinitionParts, Expr, Item, TypeName, TypeShape};
use tsl_value::place::Place;
use tsl_value::scalar::ValueType;
use tsl_value::text::Text;
use type_rules::rule::Setting;
use type_rules::written::value_of;

/// The type of an input's events, whether it is written as a stream or not.
fn event_type(of: &TypeName) -> Option<ValueType>
    ensures { result ≡ event_type of.now }
{
    match of.shape() {
        TypeShape::Events(inner) => value_of(inner),
        _ => value_of(of),
    }
}

/// Makes the equation of an item that is an input, and gives its stream.
fn input(maker: &mut Maker, item: &Item) -> Result<Option<Stream>, MakeFault>
    requires { HasEventType (item_of item.now) }
    ensures stream { IfOk result (λ s. s ∷ [] ≡ input_streams (length maker.old.equations) (item_of item.now ∷ [])) }
    ensures made { OnOk result (maker.new ≡ with_equations maker.old (declared_inputs (item_of item.now ∷ []))) }
    ensures refused { IfErr result (IsRefusal (maker.old.equations ++ declared_inputs (item_of item.now ∷ []))) }
{
    match item {
        Item::Input(_, place, name, of) => match event_type(of) {
            Some(of) => {
                let name = name.copy()?;
                let stream = maker.input(*place, name, of)?;
                Ok(Some(stream))
            }
            None => unreachable!(),
        },
        _ => Ok(None),
    }
}

/// Makes the equations of all inputs. What is answered are their streams, by the numbers of their items.
pub(crate) fn inputs(
    alloc: Global,
    maker: &mut Maker,
    items: &[Item],
) -> Result<Vec<Option<Stream>>, MakeFault>
    requires { HaveEventTypes (map item_of items.now) }
    ensures streams { IfOk result (λ v. v.items ≡ input_streams (length maker.old.equations) (map item_of items.now)) }
    ensures made { OnOk result (maker.new ≡ with_equations maker.old (declared_inputs (map item_of items.now))) }
    ensures refused { IfErr result (IsRefusal (maker.old.equations ++ declared_inputs (map item_of items.now))) }
{
    let mut streams = Vec::new(alloc);
    for item in items {
        let stream = input(maker, item)?;
        streams.push(stream)?;
    }
    Ok(streams)
}

/// The definition of an item that is a stream: it has no parameters.
fn stream_definition(item: &Item) -> Option<&DefinitionParts>
    ensures { MatchOption result (is_stream (Some (item_of item.now)) ≡ false) (λ d. IsStreamDefinition (item_of item.now) d.now) }
{
    match item {
        Item::Defined(_, definition) => {
            let parts = definition.parts();
            if parts.params.is_empty() {
                Some(parts)
            } else {
                None
            }
        }
        _ => None,
    }
}

/// Adds the streams that the definitions of the top will have, where so many equations are made. Definitions use each other in any
/// order, so their numbers have to be known before.
pub(crate) fn foresee(
    counter: &Counter<'_>,
    made: u32,
    streams: &mut Vec<Option<Stream>>,
) -> Result<(), MakeFault>
    requires names { HasNames counter.now }
    requires few { made ≤ MOST_EQUATIONS }
    requires room { length streams.old.items ≡ length counter.now.items.now }
    ensures foreseen { OnOk result (AreForeseen (map item_of counter.now.items.now) (kinds_of counter.now.kinds.now) made
        streams.old.items streams.new.items) }
    ensures memory { IfErr result (λ f. f ≡ fault.Memory) }
{
    let items = counter.items;
    let scope = Scope::all(counter.names);
    let mut count = made;
    for (number, item) in items.iter().enumerate() {
        if let Some(definition) = stream_definition(item) {
            let around = Around {
                items: counter.items,
                kinds: counter.kinds,
                scope: &scope,
                setting: Setting::Streams,
                number,
                params: &[],
            };
            count = counter.body(&around, MOST_CALLS, result_of(&definition.body), count)?;
            streams[number] = ending_at(count, counter.kinds.item(number));
        }
    }
    Ok(())
}

impl Context<'_> {
    /// In item `number`, outside of all calls.
    fn at_top<'b>(&'b self, scope: &'b Scope<'b>, number: usize) -> Here<'b, 'b>
        requires { scope.now ≡ self.now.names.now ∷ [] }
        ensures here { IsTopHere self.now result }
        ensures number { result.around.number ≡ number }
    {
        Here {
            around: Around {
                items: self.items,
                kinds: self.kinds,
                scope,
                setting: Setting::Streams,
                number,
                params: &[],
            },
            params: &[],
            locals: &[],
            deep: MOST_CALLS,
        }
    }

    /// Makes the definition of an item, if it is a stream. Its last equation gets its name.
    fn make_definition(
        &self,
        maker: &mut Maker,
        here: &Here<'_, '_>,
        item: &Item,
    ) -> Result<(), MakeFault>
        requires here { IsTopHere self.now here.now }
        requires ready { IsReady self.now }
        requires item { slice_get (items_in self.now) here.now.around.number ≡ Some (item_of item.now) }
        ensures made { OnOk result (IsStreamMade self.now here.now.around.number (item_of item.now) maker.old maker.new) }
        ensures refused { IfErr result (IsRefusedAfter maker.old
            (stream_marks (items_in self.now) (kinds_in self.now) here.now.around.number (item_of item.now ∷ []))) }
    {
        if let Some(definition) = stream_definition(item) {
            let _stream = self.body(maker, here, result_of(&definition.body))?;
            maker.name_last(definition.name.copy()?);
        }
        Ok(())
    }

    fn definition(&self, maker: &mut Maker, number: usize, item: &Item) -> Result<(), MakeFault>
        requires ready { IsReady self.now }
        requires item { slice_get (items_in self.now) number ≡ Some (item_of item.now) }
        ensures made { OnOk result (IsStreamMade self.now number (item_of item.now) maker.old maker.new) }
        ensures refused { IfErr result (IsRefusedAfter maker.old
            (stream_marks (items_in self.now) (kinds_in self.now) number (item_of item.now ∷ []))) }
    {
        let scope = Scope::all(self.names);
        let here = self.at_top(&scope, number);
        self.make_definition(maker, &here, item)
    }

    /// Makes the definitions of the top that are streams.
    pub(crate) fn definitions(&self, maker: &mut Maker) -> Result<(), MakeFault>
        requires { IsReady self.now }
        ensures made { OnOk result (AreStreamsMade self.now (items_in self.now) maker.old maker.new) }
        ensures refused { IfErr result (IsRefusedAfter maker.old
            (stream_marks (items_in self.now) (kinds_in self.now) 0 (items_in self.now))) }
    {
        let items = self.items;
        for (number, item) in items.iter().enumerate() {
            self.definition(maker, number, item)?;
        }
        Ok(())
    }

    /// An output that is a name. `unit` is an expression of its own.
    fn output_name(
        &self,
        maker: &mut Maker,
        here: &Here<'_, '_>,
        place: Place,
        name: &Text,
    ) -> Result<Stream, MakeFault>
        requires { CanPrint self.now here.now (tree.Name place name.now) }
        ensures printed { IfOk result (λ s. IsPrinted self.now here.now.around.number (tree.Name place name.now) name.now maker.old
            maker.new s) }
        ensures refused { IfErr result (IsRefusedAfter maker.old
            (printed_marks (items_in self.now) (kinds_in self.now) here.now.around.number (tree.Name place name.now))) }
    {
        if is_unit(name.as_str()) {
            unit(maker, place, name)
        } else {
            self.named(here, name.as_str())
        }
    }

    /// The expression of an output. Its last equation gets the printed name, if it makes one.
    fn printed(
        &self,
        maker: &mut Maker,
        here: &Here<'_, '_>,
        expression: &Expr,
        name: &Text,
    ) -> Result<Stream, MakeFault>
        requires { CanPrint self.now here.now expression.now }
        ensures printed { IfOk result (λ s. IsPrinted self.now here.now.around.number expression.now name.now maker.old maker.new s) }
        ensures refused { IfErr result (IsRefusedAfter maker.old
            (printed_marks (items_in self.now) (kinds_in self.now) here.now.around.number expression.now)) }
    {
        let stream = self.expression(maker, here, expression)?;
        if is_only_name(expression) {
            return Ok(stream);
        }
        maker.name_last(name.copy()?);
        Ok(stream)
    }

    /// Makes an item that is an output.
    fn make_output(
        &self,
        maker: &mut Maker,
        here: &Here<'_, '_>,
        item: &Item,
    ) -> Result<(), MakeFault>
        requires here { IsTopHere self.now here.now }
        requires ready { IsReady self.now }
        requires item { slice_get (items_in self.now) here.now.around.number ≡ Some (item_of item.now) }
        requires room { length maker.old.outputs < 2 ^ 31 }
        ensures made { OnOk result (AreOutputsMade self.now here.now.around.number (item_of item.now ∷ []) maker.old maker.new) }
        ensures refused { IfErr result (IsRefusedAfter maker.old
            (output_marks (items_in self.now) (kinds_in self.now) here.now.around.number (item_of item.now ∷ []))) }
    {
        match item {
            Item::Output(_, place, name) => {
                let stream = self.output_name(maker, here, *place, name)?;
                add_output(maker, name, stream)
            }
            Item::OutputAs(_, expression, _, name) => {
                let stream = self.printed(maker, here, expression, name)?;
                add_output(maker, name, stream)
            }
            Item::Input(_, _, _, _) => Ok(()),
            Item::Defined(_, _) => Ok(()),
        }
    }

    fn output(&self, maker: &mut Maker, number: usize, item: &Item) -> Result<(), MakeFault>
        requires ready { IsReady self.now }
        requires item { slice_get (items_in self.now) number ≡ Some (item_of item.now) }
        requires room { length maker.old.outputs < 2 ^ 31 }
        ensures made { OnOk result (AreOutputsMade self.now number (item_of item.now ∷ []) maker.old maker.new) }
        ensures refused { IfErr result (IsRefusedAfter maker.old
            (output_marks (items_in self.now) (kinds_in self.now) number (item_of item.now ∷ []))) }
    {
        let scope = Scope::all(self.names);
        let here = self.at_top(&scope, number);
        self.make_output(maker, &here, item)
    }

    /// Makes the outputs.
    pub(crate) fn outputs(&self, maker: &mut Maker) -> Result<(), MakeFault>
        requires ready { IsReady self.now }
        requires room { length maker.old.outputs + length self.now.items.now < 2 ^ 31 }
        ensures made { OnOk result (AreOutputsMade self.now 0 (items_in self.now) maker.old maker.new) }
        ensures refused { IfErr result (IsRefusedAfter maker.old
            (output_marks (items_in self.now) (kinds_in self.now) 0 (items_in self.now))) }
    {
        let items = self.items;
        for (number, item) in items.iter().enumerate() {
            self.output(maker, number, item)?;
        }
        Ok(())
    }
}

/// The stream `unit`, under that name.
fn unit(maker: &mut Maker, place: Place, name: &Text) -> Result<Stream, MakeFault>
    ensures stream { IfOk result (λ s. s ≡ stream_of maker.old (named_unit place name.now ∷ []) unit_type) }
    ensures made { OnOk result (maker.new ≡ with_equations maker.old (named_unit place name.now ∷ [])) }
    ensures refused { IfErr result (IsRefusal (maker.old.equations ++ equations_for maker.old place unit_type construct.Unit [])) }
{
    let stream = maker.unit(place)?;
    maker.name_last(name.copy()?);
    Ok(stream)
}

fn add_output(maker: &mut Maker, name: &Text, stream: Stream) -> Result<(), MakeFault>
    requires { length maker.old.outputs < 2 ^ 31 }
    ensures added { OnOk result (maker.new
        ≡ record maker.old { outputs = maker.old.outputs ++ record { name = name.now; equation = stream.id } ∷ [] }) }
    ensures memory { IfErr result (λ f. f ≡ fault.Memory) }
{
    maker.add_output(Output {
        name: name.copy()?,
        equation: stream.id,
    })?;
    Ok(())
}
