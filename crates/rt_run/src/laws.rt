//! Laws of what is written: functions that do nothing, each for the law that it ensures.
ghost use Rattle.rt_run.specs.Laws.{OneLattice, OneText};

/// Two lattices of one order, as those that one file says ([`rt_lattice::laws::one_order`]), derive the same judgements, from
/// any lines. Their cells may differ in what they say of a constant and itself, which no rule asks.
pub fn one_lattice()
    ensures { OneLattice }
{}

/// The bytes of an object have one text of each content, with signatures and a lattice whose order is partial, as it is of
/// each that a file says ([`rt_lattice::laws::partial`]).
pub fn one_text()
    ensures { OneText }
{
    rt_proc::laws::one_list();
    rt_table::laws::one_list();
    rt_solve::laws::one_solution();
    rt_sketch::laws::one_sketch();
    rt_header::laws::one_header_of();
}
