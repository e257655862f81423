// The actions of sites.
ghost use Rattle.std.specs.Prelude.{◌≡◌, Option, None, IfOk, map};
ghost use Rattle.rt_body.specs.declared.action.Action.TheVariants as action;
ghost use Rattle.rt_link.specs.Links.{AreLinksOf};
ghost use Rattle.rt_elf.specs.Parts.{Parts as Object};
ghost use Rattle.rt_body.specs.Actions.{add_action, address_by, insn_action, kind_action, site_action, upper_action};
ghost use Rattle.rt_body.specs.Lowest.{lowest_in, AreSymbolsOf};

use crate::action::{Action, Address, Loaded, Operation, Width};
use crate::symbols::Symbols;
use rt_base::{Memory, Sequence};
use rt_insn::Insn;
use rt_insn::registers::A0;
use rt_link::{Link, Links};
use rt_proc::{Kind, Site};
use std::alloc::Global;

// LUI gives a constant, unless a relocation gives it the high bits of an address.
fn upper_action(link: Option<Link>, to: u8, immediate: i32) -> Action
    ensures { result ≡ upper_action link to immediate }
{
    match link {
        Some(Link::High { .. }) => Action::Write { to },
        _ => Action::Constant {
            to,
            value: immediate.cast_unsigned(),
        },
    }
}

// ADDI gives a symbol's address where a relocation gives it the low bits.
fn add_action(symbols: &Symbols, link: Option<Link>, to: u8, from: u8, immediate: i32) -> Action
    ensures { result ≡ add_action (lowest_in symbols.now) link to from immediate }
{
    match link {
        Some(Link::Low { symbol, addend }) => Action::Symbol {
            to,
            symbol: symbols.lowest(symbol),
            addend,
        },
        _ => Action::AddImmediate {
            to,
            from,
            immediate,
        },
    }
}

// So does the address of a load or a store.
fn address_by(symbols: &Symbols, link: Option<Link>, from: u8, immediate: i32) -> Address
    ensures { result ≡ address_by (lowest_in symbols.now) link from immediate }
{
    match link {
        Some(Link::Low { symbol, addend }) => Address::Symbol(symbols.lowest(symbol), addend),
        _ => Address::Register(from, immediate),
    }
}

// A load.
fn load(
    symbols: &Symbols,
    link: Option<Link>,
    loaded: Loaded,
    to: u8,
    from: u8,
    offset: i32,
) -> Action
    ensures { result ≡ action.Load loaded to (address_by (lowest_in symbols.now) link from offset) }
{
    Action::Load {
        loaded,
        to,
        address: address_by(symbols, link, from, offset),
    }
}

// A store.
fn store(
    symbols: &Symbols,
    link: Option<Link>,
    width: Width,
    stored: u8,
    to: u8,
    offset: i32,
) -> Action
    ensures { result ≡ action.Store width stored (address_by (lowest_in symbols.now) link to offset) }
{
    Action::Store {
        width,
        data: stored,
        address: address_by(symbols, link, to, offset),
    }
}

// A computation of two registers.
fn compute(operation: Operation, to: u8, left: u8, right: u8) -> Action
    ensures { result ≡ action.Compute operation to left (Option.Some right) }
{
    Action::Compute {
        operation,
        to,
        left,
        right: Some(right),
    }
}

// A computation of a register and an immediate.
fn compute_immediate(operation: Operation, to: u8, left: u8) -> Action
    ensures { result ≡ action.Compute operation to left None }
{
    Action::Compute {
        operation,
        to,
        left,
        right: None,
    }
}

// What an instruction does.
#[tactic(auto, unfolding(crate::specs::Actions::insn_action))]
fn insn_action(symbols: &Symbols, link: Option<Link>, insn: Insn) -> Action
    ensures { result ≡ insn_action (lowest_in symbols.now) link insn }
{
    match insn {
        Insn::Lui(to, immediate) => upper_action(link, to, immediate),
        Insn::Auipc(to, _) | Insn::Jal(to, _) => Action::Write { to },
        Insn::Blt(left, right, _) | Insn::Bge(left, right, _) => Action::Compare { left, right },
        Insn::Lb(to, from, offset) => load(symbols, link, Loaded::SignedByte, to, from, offset),
        Insn::Lh(to, from, offset) => load(symbols, link, Loaded::SignedHalf, to, from, offset),
        Insn::Lw(to, from, offset) => load(symbols, link, Loaded::Word, to, from, offset),
        Insn::Lbu(to, from, offset) => load(symbols, link, Loaded::Byte, to, from, offset),
        Insn::Lhu(to, from, offset) => load(symbols, link, Loaded::Half, to, from, offset),
        Insn::Sb(to, data, offset) => store(symbols, link, Width::Byte, data, to, offset),
        Insn::Sh(to, data, offset) => store(symbols, link, Width::Half, data, to, offset),
        Insn::Sw(to, data, offset) => store(symbols, link, Width::Word, data, to, offset),
        Insn::Addi(to, from, immediate) => add_action(symbols, link, to, from, immediate),
        Insn::Slti(to, left, _) => compute_immediate(Operation::LessSigned, to, left),
        Insn::Sltiu(to, left, _) => compute_immediate(Operation::LessUnsigned, to, left),
        Insn::Slli(to, left, _) => compute_immediate(Operation::Scale, to, left),
        Insn::Srli(to, left, _) => compute_immediate(Operation::ShiftRight, to, left),
        Insn::Srai(to, left, _) => compute_immediate(Operation::ShiftRightSigned, to, left),
        Insn::Jalr(to, _, _) | Insn::Xori(to, _, _) | Insn::Ori(to, _, _) | Insn::Andi(to, _, _) =>
            { Action::Write { to } }
        Insn::Sub(to, _, _) | Insn::Xor(to, _, _) | Insn::Or(to, _, _) | Insn::And(to, _, _) => {
            Action::Write { to }
        }
        Insn::Add(to, left, right) => Action::Add { to, left, right },
        Insn::Slt(to, left, right) => compute(Operation::LessSigned, to, left, right),
        Insn::Sltu(to, left, right) => compute(Operation::LessUnsigned, to, left, right),
        Insn::Sll(to, left, right) | Insn::Mul(to, left, right) => {
            compute(Operation::Scale, to, left, right)
        }
        Insn::Srl(to, left, right) => compute(Operation::ShiftRight, to, left, right),
        Insn::Sra(to, left, right) => compute(Operation::ShiftRightSigned, to, left, right),
        Insn::Mulh(to, left, right) | Insn::Div(to, left, right) | Insn::Rem(to, left, right) => {
            compute(Operation::Signed, to, left, right)
        }
        Insn::Mulhu(to, left, right) | Insn::Divu(to, left, right) | Insn::Remu(to, left, right) =>
            { compute(Operation::Unsigned, to, left, right) }
        Insn::Mulhsu(to, left, right) => compute(Operation::SignedByUnsigned, to, left, right),
        Insn::Ecall => Action::Write { to: A0 },
        _ => Action::Pass,
    }
}

/// What a site of a kind does, by the relocation with an effect at its place.
pub(crate) fn kind_action(symbols: &Symbols, link: Option<Link>, kind: Kind) -> Action
    ensures { result ≡ kind_action (lowest_in symbols.now) link kind }
{
    match kind {
        Kind::Plain(insn) => insn_action(symbols, link, insn),
        Kind::Call(callee, link) => Action::Call { callee, link },
        Kind::Return => Action::Return,
        Kind::Stop => Action::Stop,
    }
}

// What a site does.
fn site_action(links: &Links, symbols: &Symbols, site: &Site) -> Action
    ensures { (object : Object) → AreLinksOf object links.now → AreSymbolsOf object symbols.now →
        result ≡ site_action object site.now }
{
    let link = links.at(site.place.section, site.place.offset);
    kind_action(symbols, link, site.kind)
}

/// What sites do, in their order. The error is out of memory.
pub(crate) fn actions(
    alloc: Global,
    links: &Links,
    symbols: &Symbols,
    sites: &[Site],
) -> Result<Sequence<Action>, Memory>
    ensures { IfOk result (λ actions. (object : Object) → AreLinksOf object links.now → AreSymbolsOf object symbols.now
        → actions ≡ map (site_action object) sites.now) }
{
    let mut actions = Sequence::new(alloc);
    for site in sites {
        actions.push(site_action(links, symbols, site))?;
    }
    Ok(actions)
}
