ghost use Rattle.std.specs.Prelude.{ℕ, List, Bool, true, ◌≡◌, refl};

/// Structures, by meanings alone: there is no call that runs. A list of whole numbers names one
/// structure. Code that is generic in a `World` cannot look at it, so what it promises holds in
/// every structure. Source: structures with at least one element, as in the TPTP's semantics.
pub trait World {
    /// Whether a whole number is an element of the structure that the list names.
    ghost element: { List ℕ → ℕ → Type 0 };

    /// Whether a predicate, by its name and the list of its arguments, holds in that structure.
    ghost holds: { List ℕ → List ℕ → List ℕ → Bool };

    /// The element that a constant, by its name, stands for.
    ghost place: { List ℕ → List ℕ → ℕ };

    /// One element.
    ghost some: { List ℕ → ℕ };

    /// Each constant stands for an element.
    ghost placed: { (k : List ℕ) (constant : List ℕ) → element k (place k constant) };

    /// There is an element.
    ghost inhabited: { (k : List ℕ) → element k (some k) };
}

/// The structures whose one element is 0, in which every predicate holds.
#[derive(Clone, Copy, Debug)]
pub struct AnyWorld;

impl World for AnyWorld {
    ghost element = { λ _ x. x ≡ 0 };

    ghost holds = { λ _ _ _. true };

    ghost place = { λ _ _. 0 };

    ghost some = { λ _. 0 };

    ghost placed = { λ _ _. refl };

    ghost inhabited = { λ _. refl };
}
