// The level of a node, its ancestors, and the marks of levels.
ghost use Rattle.std.specs.Prelude.{◌≡◌, ◌≤◌};
ghost use Rattle.region.specs.Level.{ancestor, level, mark};

// The level of node n, 0 for node 0.
#[tactic(auto, using(crate::proofs::Levels::level_leading))]
pub fn level_of(n: u32) -> u32
    ensures { result ≡ level n }
{
    32 - u32::leading_zeros(n)
}

// The ancestor of node n at level j.
#[tactic(auto, unfolding(crate::specs::Level::ancestor))]
pub fn ancestor_at(n: u32, j: u32) -> u32
    requires { 1 ≤ j }
    ensures { result ≡ ancestor n j }
{
    n >> level_of(n).saturating_sub(j)
}

// The mark of level j among the waiting levels: bit j - 1.
pub fn mark_of(j: u32) -> u32
    requires { (1 ≤ j) × (j ≤ 32) }
    ensures { result ≡ mark j }
{
    1 << (j - 1)
}
