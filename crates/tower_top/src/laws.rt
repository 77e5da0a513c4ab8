//! What holds of every call. Each law is the contract of a function that does nothing.
ghost use Rattle.tower_top.specs.Laws.{OneAnswer, DueComes, AnswersAreDue, ListingsAreSound};
ghost use Rattle.tower_top.specs.RunLaws.{EnoughIsDone, DoneComes};

/// Where the shelf tells the texts that are to be read, at most one status is due, with its texts.
pub fn one_answer_is_due()
    ensures { OneAnswer }
{}

/// Where no count of faults rose and the shelf tells the texts that are to be read, what is due comes: the status, and
/// its texts whole; or memory was wanting.
pub fn what_is_due_comes()
    ensures { DueComes }
{}

/// Where all inputs are valid, the command's answer is due.
pub fn answers_are_due()
    ensures { AnswersAreDue }
{}

/// A run whose limit is at least what its messages cost is never stopped: where its words are right and all inputs
/// valid, its answer is that it is done. That answer comes, with its text whole, or memory was wanting, where no count of
/// faults rose and the shelf tells the texts that are to be read.
pub fn enough_is_done()
    ensures due { EnoughIsDone }
    ensures comes { DoneComes }
{}

/// What `compile` writes of an accepted file is the listing of one program and of no other, and that program is sound: in
/// every run over every event record that fits, whatever order of turns, it does what the handlers say. It is within the
/// limit on texts and has no fault, so the listing's reader answers this program, with no condition left but memory.
pub fn listings_are_sound()
    ensures { ListingsAreSound }
{}
