ghost use Rattle.std.specs.Prelude.{ℕ, ◌≡◌};
ghost use Rattle.vernacular_tree.specs.Contexts.{Task};
ghost use Rattle.vernacular_tree.specs.declared.context.Context.{Context};
ghost use Rattle.trail_search.specs.Least.{LeastFrom};

/// Smallest proofs from one context are of one size.
pub fn least_is_one()
    ensures { (task : Task) (context : Context) (m n : ℕ)
        → LeastFrom task context m → LeastFrom task context n → m ≡ n }
{}
