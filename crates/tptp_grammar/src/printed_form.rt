use token_grammar::Factored;

/// The printed grammar of items, and the factored one that is read.
pub struct PrintedForm;

impl Factored for PrintedForm {
    ghost use Rattle.tptp_grammar.specs.declared.mark.Mark.{Mark};
    ghost use Rattle.tptp_grammar.specs.declared.item_part.ItemPart.{ItemPart};
    ghost use Rattle.tptp_grammar.specs.declared.item_part.ItemPart.TheVariants.{Items};
    ghost use Rattle.tptp_grammar.specs.Parts.{fof_items};
    ghost use Rattle.tptp_grammar.specs.Printed.{Printed, printed_items};
    ghost use Rattle.tptp_grammar.specs.Printed.Printed.{items};
    ghost use Rattle.tptp_grammar.specs.PrintedLaw.{printed_rows, made, printed_law, factored_law};
    ghost use Rattle.std.proofs.Common.{refl};

    ghost Token = { Mark };

    ghost Part = { ItemPart };

    ghost Printed = { Printed };

    ghost grammar = { fof_items };

    ghost printed = { printed_items };

    ghost start = { Items };

    ghost printed_start = { items };

    ghost stands = { printed_rows };

    ghost made = { made };

    ghost printed_from = { printed_law };

    ghost factored_from = { factored_law };

    ghost start_stands = { refl };

    ghost printed_start_made = { refl };
}
