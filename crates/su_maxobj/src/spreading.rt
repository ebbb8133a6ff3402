//! Whether two sets of attributes are apart.
ghost use Rattle.std.specs.Prelude.{◌≡◌, ◌↔◌, IsTrue};
ghost use Rattle.su_maxobj.specs.Apart.{shares, Apart};
ghost use Rattle.su_maxobj.specs.Growth.{IsGrown};

use su_base::AttrSet;

/// Whether `s` and `t` have a common attribute outside `x`.
fn share(x: AttrSet, s: AttrSet, t: AttrSet) -> bool
    ensures { result ≡ shares x s t }
{
    !s.meet(t).within(x)
}

/// Whether no list of objects leads from `p` to `q` outside `x`. What `p` reaches spreads, object by
/// object, until a pass adds nothing or an object leads to `q`.
pub fn apart(objects: &[AttrSet], x: AttrSet, p: AttrSet, q: AttrSet) -> bool
    ensures { IsTrue result ↔ Apart objects.now x p q }
{
    let mut reached = p;
    'passes: loop {
        let mut wider = reached;
        for object in objects {
            if share(x, wider, *object) {
                if share(x, *object, q) {
                    return false;
                }
                wider = wider.union(*object);
            }
        }
        if wider.within(reached) {
            return true;
        }
        reached = wider;
    }
}
