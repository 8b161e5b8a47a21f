// What acceptance means, by the definitions of the papers. A function here does nothing; its contract is the theorem,
// so that the check of the crate proves the statement as it stands.
ghost use Rattle.forms.specs.Theorems.AcceptanceTheorems.{FinishIsPath, RouteIsFirst, AcceptanceIsPreStar};

// A form can finish exactly where a path of done transitions leads to a final state.
pub fn finish_is_path()
    ensures theorem { FinishIsPath }
{}

// The route of an accepted form is the accepting state sequence that comes first in lexicographic order.
pub fn route_is_first()
    ensures theorem { RouteIsFirst }
{}

// On a finished table acceptance is membership in pre* of the job's language.
pub fn acceptance_is_pre_star()
    ensures theorem { AcceptanceIsPreStar }
{}
