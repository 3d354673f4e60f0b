// A specification that is accepted.

ghost use Rattle.type_check.specs.Faults.{IsAccepted};

use expr_types::kinds::KindTable;
use name_check::names::Names;
use syntax_tree::tree::Tree;

/// A specification that the check accepts, with what the names of its top stand for and what its declared names are. The
/// type of an expression is found from these where it stands.
#[derive(Drop)]
pub struct Typed<'t> {
    pub tree: &'t Tree,
    pub names: Names,
    pub kinds: KindTable,
}
