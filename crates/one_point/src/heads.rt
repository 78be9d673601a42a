// The words before a quantifier's body.
ghost use Rattle.std.specs.Prelude.{◌≡◌};
ghost use Rattle.one_point.specs.Internal.Reduce.{operator_in, Headed};

// The operator of a head: its tag is 10 more where declarations have flags.
pub(crate) fn operator_of(head: &[u32]) -> u32
    requires { Headed head.now }
    ensures { result ≡ operator_in head.now }
{
    if 860 < head[0] {
        return head[0] - 10;
    }
    head[0]
}
