// The laws of templates: functions that do nothing, each for the law that it ensures.
ghost use Rattle.rt_templates.specs.Laws.{OneUnfolding, SolvedLaw};
ghost use Rattle.rt_templates.specs.Tables.{ListsLaw, TemplatesLaw};

/// The lists of a group in the table are made of templates: each member has one, of the items that the table writes for it
/// and of what its calls make instances of, and the lists are numbered from what these give.
pub fn lists()
    ensures { ListsLaw }
{}

/// The templates of the table's lists, group after group, are such that callees come first.
pub fn templates()
    ensures { TemplatesLaw }
{}

/// What a caller can conclude from a procedure's scheme is what it could conclude from all of the code below it: under the
/// order of constants, the schemes that are solved are alike to the unfolded lists of the table, in which an instance of a
/// callee's own unfolded list stands in place of each instance of its scheme, and name the same arguments and results. Each
/// procedure has one unfolded list.
pub fn unfolding()
    ensures below { SolvedLaw }
    ensures one { OneUnfolding }
{
    rt_unfold::laws::unfolding();
    templates();
}
