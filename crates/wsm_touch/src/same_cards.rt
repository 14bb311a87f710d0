// Whether two cards are one.
ghost use Rattle.std.specs.Prelude.{◌≡◌};
ghost use Rattle.wsm_touch.specs.SameCards.{same_card, same_data, same_edges, same_place};

use wsm_schema::Card;

/// Whether two cards are equal.
pub fn same_card(one: &Card, other: &Card) -> bool
    ensures { result ≡ same_card one.now other.now }
{
    same_place(one, other) && same_edges(one, other) && same_data(one, other)
}

fn same_place(one: &Card, other: &Card) -> bool
    ensures { result ≡ same_place one.now other.now }
{
    one.node == other.node && one.kind == other.kind && one.partner == other.partner
}

fn same_edges(one: &Card, other: &Card) -> bool
    ensures { result ≡ same_edges one.now other.now }
{
    one.ins.is_same(&other.ins)
        && one.outs.is_same(&other.outs)
        && one.syncs_in.is_same(&other.syncs_in)
        && one.syncs_out.is_same(&other.syncs_out)
}

fn same_data(one: &Card, other: &Card) -> bool
    ensures { result ≡ same_data one.now other.now }
{
    one.reads.is_same(&other.reads) && one.writes.is_same(&other.writes) && one.role == other.role
}
