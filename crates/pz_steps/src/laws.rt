//! Laws of the steps of a session. Each is what a function without a body ensures.

ghost use Rattle.pz_steps.specs.Laws.{ItemsGoOn, StagesEndInItems};

/// From where a session stands after so many inputs its items go on, up to its close.
pub fn items_go_on()
    ensures { ItemsGoOn }
{}

/// The items of a session follow from the stages of its steps.
pub fn stages_end_in_items()
    ensures { StagesEndInItems }
{}
