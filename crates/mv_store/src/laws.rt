//! Laws of the definitions, for the proofs of crates above.
ghost use Rattle.mv_store.specs.Answers.{AnswersFollowDisplayOrder};
ghost use Rattle.mv_store.specs.Stored.{StandsWhateverIsLeft};

/// What a commit answers is what comes next in display order, whatever pictures follow.
pub fn answers_law()
    ensures { AnswersFollowDisplayOrder }
{}

/// A store stands for the same pictures whatever is left in the picture that it lent.
pub fn lent_law()
    ensures { StandsWhateverIsLeft }
{}
