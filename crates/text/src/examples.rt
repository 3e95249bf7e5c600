// The worked examples of the documents.
ghost use Rattle.text.specs.Examples.{Examples};

#[tactic(auto, unfolding(crate::specs::Utf8::utf8, crate::specs::Utf8::encode))]
pub fn examples_stand()
    ensures { Examples }
{}
