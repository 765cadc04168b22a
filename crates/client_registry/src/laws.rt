//! What holds of every list of clients: each function does nothing, and its clause is the law.

ghost use Rattle.client_registry.specs.Laws.{StaysOrderly, AllAreFound};

/// Ids rise from client to client and none is above the one that was given last, at first and after every call. So no id
/// is given again, whoever went.
pub fn ids_are_never_given_again()
    ensures { StaysOrderly }
{}

/// Each client of such a list is found by its own id: no two have one.
pub fn clients_are_found_by_their_ids()
    ensures { AllAreFound }
{}
