// What stands around expressions while their equations are made.

ghost use Rattle.std.specs.Prelude.{◌≡◌};
ghost use Rattle.name_check.specs.Scope.{meaning, seen};
ghost use Rattle.macro_flatten.specs.inner.Here.{macro_in, stream_at, top_stream};

use equation_marks::count::Counter;
use expr_types::around::Around;
use expr_types::kinds::KindTable;
use function_bodies::functions::Functions;
use name_check::declaration::Declaration;
use name_check::names::Names;
use std::alloc::Global;
use stream_constructs::construct::Stream;
use syntax_tree::tree::Item;

/// A specification, what is known of it, and the streams of its inputs and of its definitions of the top, by the numbers of their
/// items.
#[derive(Drop)]
pub(crate) struct Context<'a> {
    pub(crate) alloc: Global,
    pub(crate) items: &'a [Item],
    pub(crate) names: &'a Names,
    pub(crate) kinds: &'a KindTable,
    pub(crate) functions: &'a Functions,
    pub(crate) streams: &'a [Option<Stream>],
}

/// Where an expression stands: what is seen there, and the streams of the parameters and of the definitions of the block around it.
#[derive(Drop)]
pub(crate) struct Here<'a, 's> {
    pub(crate) around: Around<'a>,
    pub(crate) params: &'s [Stream],
    pub(crate) locals: &'s [Stream],
    /// Calls of macros nest no deeper from here on.
    pub(crate) deep: u32,
}

/// The number of the macro for which a name stands, if it stands for one.
pub(crate) fn macro_named(here: &Here<'_, '_>, name: &str) -> Option<usize>
    ensures { result ≡ macro_in (meaning (seen here.now.around.scope.now) name.now) }
{
    match here.around.scope.find(name) {
        Some(Declaration::Macro(number)) => Some(number),
        Some(Declaration::Input(_)) => None,
        Some(Declaration::Stream(_)) => None,
        Some(Declaration::Parameter(_)) => None,
        Some(Declaration::Local(_)) => None,
        Some(Declaration::Function(_)) => None,
        Some(Declaration::Mixed(_)) => None,
        None => None,
    }
}

impl<'a> Context<'a> {
    pub(crate) fn counter(&self) -> Counter<'a>
        ensures items { result.items ≡ self.now.items }
        ensures names { result.names ≡ self.now.names }
        ensures kinds { result.kinds ≡ self.now.kinds }
    {
        Counter {
            alloc: self.alloc,
            items: self.items,
            names: self.names,
            kinds: self.kinds,
        }
    }

    /// The stream of an input or of a definition of the top.
    fn top_stream(&self, number: usize) -> Option<Stream>
        ensures { result ≡ top_stream self.now number }
    {
        match self.streams.get(number) {
            Some(stream) => *stream,
            None => None,
        }
    }

    /// The stream for which a name stands.
    pub(crate) fn stream(&self, here: &Here<'_, '_>, name: &str) -> Option<Stream>
        ensures { result ≡ stream_at self.now here.now (meaning (seen here.now.around.scope.now) name.now) }
    {
        match here.around.scope.find(name) {
            Some(Declaration::Input(number)) => self.top_stream(number),
            Some(Declaration::Stream(number)) => self.top_stream(number),
            Some(Declaration::Parameter(number)) => here.params.get(number).copied(),
            Some(Declaration::Local(number)) => here.locals.get(number).copied(),
            Some(Declaration::Macro(_)) => None,
            Some(Declaration::Function(_)) => None,
            Some(Declaration::Mixed(_)) => None,
            None => None,
        }
    }
}
