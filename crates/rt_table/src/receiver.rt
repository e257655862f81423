// What arguments are passed to.
use rt_rows::Term;

/// What takes the arguments of a call: a member of the group, by its number; the instance of a scheme, by the number of the call
/// among the site's; or what is known of a pointer to a function.
#[derive(Clone, Copy)]
pub(crate) enum Receiver<'a> {
    Member(u32),
    Instance(u32),
    Pointer(&'a Term),
}
