//! What the definitions promise of answers, one law a function.

ghost use Rattle.object_adapter.specs.Laws.{ObjectsAreThere};

/// No object answers that the object or the facet of a call is not there. (Ice manual, "Reply Message".)
pub fn objects_are_there()
    ensures { ObjectsAreThere }
{}
