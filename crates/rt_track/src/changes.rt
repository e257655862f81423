// What holds from a site on.
ghost use Rattle.std.specs.Prelude.{◌≡◌};
ghost use Rattle.rt_track.specs.Changes.{change_at, IsAscending};

/// What holds at a site by changes whose sites rise, each from its site on, and `before` where none does yet. It takes time
/// logarithmic in how many there are.
pub(crate) fn change_at<T: Copy>(changes: &[(u32, T)], site: u32, before: T) -> T
    requires { IsAscending changes.now }
    ensures { result ≡ change_at changes.now site before }
{
    let count = changes.partition_point(|change| change.0 <= site);
    if count == 0 {
        return before;
    }
    changes[count - 1].1
}
