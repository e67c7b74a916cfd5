ghost use Rattle.std.specs.Prelude.{◌≡◌, [], ◌∷◌, ◌++◌, Some, slice_get, IfOk, IsTrue};
ghost use Rattle.proof_text.specs.Effects as spec;
ghost use Rattle.proof_text.specs.Grammar as grammar;
ghost use Rattle.proof_text.specs.Marks.{marked};
ghost use Rattle.proof_text.specs.Proper.{IsProper};
ghost use Rattle.proof_text.specs.Values as values;
ghost use Rattle.coherent_form.specs.declared.citation.Symbol.TheVariants.{Equality as equality};
ghost use Rattle.proof_text.specs.declared.part.Act.TheVariants as act;
ghost use Rattle.proof_text.specs.declared.part.Pass.TheVariants as pass;
ghost use Rattle.proof_text.specs.declared.part.Naming.TheVariants as naming;
ghost use Rattle.proof_text.specs.declared.part.Counting.TheVariants as counting;

use crate::body::{ArgsText, Binding, BodyText, CaseText, EndText, MpText, NamedAtom, Shown};
use crate::mark::Token;
use crate::part::{Act, Counting, Naming, Pass, Rule, Taker, TextPart};
use crate::script::Script;
use crate::store::name_at;
use coherent_form::{Citation, Label, Symbol};
use std::alloc::Global;
use std::mem::replace;
use text_core::{List, Memory, Name};
use token_grammar::{Builder, Stack};
use tptp_lexer::Tokens;

/// What is open around a split: the steps of the body that it ends, and the split, cases and facts
/// around that body.
#[derive(Debug, Drop)]
pub struct Frame {
    steps: List<MpText>,
    split: u32,
    cases: List<CaseText>,
    facts: Option<List<NamedAtom>>,
}

/// Builds a script while its text is read.
#[derive(Debug, Drop)]
pub struct ScriptBuilder {
    alloc: Global,
    version: u32,
    take: List<Name>,
    // The word that was last read, and the number.
    word: Option<Name>,
    number: u32,
    // The symbol of a built-in axiom, whether it is taken as it is, and the citation.
    positive: bool,
    symbol: Symbol,
    cite: Citation,
    // The names or values that are read, the instance, and the names of new elements.
    names: List<Name>,
    binds: List<Binding>,
    instance: ArgsText,
    fresh: List<Name>,
    // The atoms of a part of a line, the parts before it, and the line.
    atoms: List<NamedAtom>,
    parts: List<List<NamedAtom>>,
    line: Option<Shown>,
    // The steps of the body that is open, and the body that was last read.
    steps: List<MpText>,
    body: BodyText,
    // The line of the split that is open, its cases, the facts of its last case, and what is open
    // around it.
    split: u32,
    cases: List<CaseText>,
    facts: Option<List<NamedAtom>>,
    outer: Stack<Frame>,
}

impl ScriptBuilder {
    /// A builder that has read nothing.
    pub fn new(alloc: Global) -> ScriptBuilder {
        ScriptBuilder {
            alloc,
            version: 0,
            take: List::new(alloc),
            word: None,
            number: 0,
            positive: true,
            symbol: Symbol::Equality,
            cite: Citation::Refl,
            names: List::new(alloc),
            binds: List::new(alloc),
            instance: ArgsText::Listed(List::new(alloc)),
            fresh: List::new(alloc),
            atoms: List::new(alloc),
            parts: List::new(alloc),
            line: None,
            steps: List::new(alloc),
            body: no_body(alloc),
            split: 0,
            cases: List::new(alloc),
            facts: None,
            outer: Stack::new(alloc),
        }
    }

    /// The script that was read.
    pub(crate) fn into_script(self) -> Script
        requires { IsProper (spec.script_in self) }
        ensures { result ≡ spec.script_in self }
    {
        Script::new(self.version, self.take, self.body)
    }

    /// The body that was last read.
    pub fn into_body(self) -> BodyText
        ensures { result ≡ self.body }
    {
        self.body
    }

    // Empties the registers of a step and of a line.
    fn clear(&mut self)
        ensures { self.new ≡ spec.cleared self.old }
    {
        self.word = None;
        self.number = 0;
        self.positive = true;
        self.symbol = Symbol::Equality;
        self.cite = Citation::Refl;
        self.names = List::new(self.alloc);
        self.binds = List::new(self.alloc);
        self.instance = ArgsText::Listed(List::new(self.alloc));
        self.fresh = List::new(self.alloc);
        self.atoms = List::new(self.alloc);
        self.parts = List::new(self.alloc);
        self.line = None;
    }

    /// Sets the citation.
    pub fn set_cite(&mut self, cite: Citation)
        ensures { self.new ≡ spec.cited cite self.old }
    {
        self.word = None;
        self.number = 0;
        self.positive = true;
        self.symbol = Symbol::Equality;
        self.cite = cite;
    }

    // The symbol that was read.
    fn take_symbol(&mut self) -> Symbol
        ensures taken { result ≡ self.old.symbol }
        ensures left { self.new ≡ record self.old { symbol = equality } }
    {
        replace(&mut self.symbol, Symbol::Equality)
    }

    // The names that were read.
    fn take_names(&mut self) -> List<Name>
        ensures taken { result ≡ self.old.names }
        ensures left { self.new ≡ record self.old { names = [] } }
    {
        replace(&mut self.names, List::new(self.alloc))
    }

    // The atoms that were read.
    fn take_atoms(&mut self) -> List<NamedAtom>
        ensures taken { result ≡ self.old.atoms }
        ensures left { self.new ≡ spec.with_atoms [] self.old }
    {
        self.word = None;
        self.names = List::new(self.alloc);
        replace(&mut self.atoms, List::new(self.alloc))
    }

    // Adds the atom to the facts.
    fn add_atom(&mut self, atom: NamedAtom) -> Result<(), Memory>
        ensures { IfOk result (λ _. self.new ≡ spec.with_atoms (self.old.atoms ++ (atom ∷ []))
            self.old) }
    {
        self.word = None;
        self.names = List::new(self.alloc);
        self.atoms.push(atom)
    }

    // Adds an atom of the word, with these arguments.
    fn add_predicate(&mut self, positive: bool, args: List<Name>) -> Result<(), Memory>
        ensures { IfOk result (λ _. self.new ≡ spec.atom_added (values.atom_of positive args)
            self.old) }
    {
        match self.word.take() {
            Some(word) => self.add_atom(NamedAtom {
                positive,
                predicate: Some(word),
                args,
            }),
            None => {
                self.names = List::new(self.alloc);
                Ok(())
            }
        }
    }

    // Adds an equation of the word and the name, or an inequality.
    fn add_equation(&mut self, positive: bool, right: Name) -> Result<(), Memory>
        ensures { IfOk result (λ _. self.new ≡ spec.atom_added (values.equation positive right)
            self.old) }
    {
        match self.word.take() {
            Some(word) => {
                let mut args = List::new(self.alloc);
                args.push(word)?;
                args.push(right)?;
                self.add_atom(NamedAtom {
                    positive,
                    predicate: None,
                    args,
                })
            }
            None => {
                self.names = List::new(self.alloc);
                Ok(())
            }
        }
    }

    // Sets the line.
    fn set_line(&mut self, line: Shown)
        ensures { self.new ≡ spec.line_read line self.old }
    {
        self.word = None;
        self.names = List::new(self.alloc);
        self.atoms = List::new(self.alloc);
        self.parts = List::new(self.alloc);
        self.line = Some(line);
    }

    // Shows the facts.
    fn show_facts(&mut self)
        ensures { self.new ≡ spec.passed pass.ShowFacts self.old }
    {
        let atoms = self.take_atoms();
        self.set_line(Shown::Facts(atoms));
    }

    // Shows the cases.
    fn show_cases(&mut self) -> Result<(), Memory>
        ensures { IfOk result (λ _. self.new ≡ spec.passed pass.ShowCases self.old) }
    {
        self.add_part()?;
        let parts = replace(&mut self.parts, List::new(self.alloc));
        self.set_line(Shown::Cases(parts));
        Ok(())
    }

    // Begins the parts of a line with the atoms so far.
    fn begin_parts(&mut self) -> Result<(), Memory>
        ensures { IfOk result (λ _. self.new ≡ spec.acted act.BeginParts self.old) }
    {
        self.parts = List::new(self.alloc);
        self.add_part()
    }

    // Adds the atoms as a part of a line.
    fn add_part(&mut self) -> Result<(), Memory>
        ensures { IfOk result (λ _. self.new ≡ spec.acted act.AddPart self.old) }
    {
        let atoms = self.take_atoms();
        self.parts.push(atoms)
    }

    // Adds a step with these new names and this line.
    fn add_step(&mut self, fresh: List<Name>, shown: Option<Shown>) -> Result<(), Memory>
        ensures { IfOk result (λ _. self.new ≡ spec.step_added fresh shown self.old) }
    {
        let cite = replace(&mut self.cite, Citation::Refl);
        let args = replace(&mut self.instance, ArgsText::Listed(List::new(self.alloc)));
        self.clear();
        self.steps.push(MpText {
            cite,
            args,
            fresh,
            shown,
        })
    }

    // Ends the body.
    fn end_body(&mut self, end: EndText)
        ensures { self.new ≡ spec.body_ended end self.old }
    {
        self.clear();
        let steps = replace(&mut self.steps, List::new(self.alloc));
        self.body = BodyText { steps, end };
    }

    // Begins a split, and keeps what is open around it.
    fn begin_split(&mut self) -> Result<(), Memory>
        ensures { IfOk result (λ _. self.new ≡ spec.split_begun self.old) }
    {
        let frame = Frame {
            steps: replace(&mut self.steps, List::new(self.alloc)),
            split: self.split,
            cases: replace(&mut self.cases, List::new(self.alloc)),
            facts: self.facts.take(),
        };
        self.split = self.number;
        self.clear();
        self.outer.push(frame)
    }

    // Ends a split, and opens again what was open around it.
    fn end_split(&mut self)
        ensures { self.new ≡ spec.split_ended self.old }
    {
        let Frame {
            steps,
            split,
            cases,
            facts,
        } = self.outer.pop_or(no_frame(self.alloc));
        let end = EndText::Cs {
            line: self.split,
            cases: replace(&mut self.cases, cases),
        };
        self.steps = steps;
        self.split = split;
        self.facts = facts;
        self.end_body(end);
    }

    // Leaves nothing of a case open.
    fn clear_case(&mut self)
        ensures { self.new ≡ spec.with_cases self.old.cases self.old }
    {
        self.clear();
        self.steps = List::new(self.alloc);
        self.body = no_body(self.alloc);
        self.facts = None;
    }

    // Adds a case.
    fn add_case(&mut self) -> Result<(), Memory>
        ensures { IfOk result (λ _. self.new ≡ spec.passed pass.AddCase self.old) }
    {
        let shown = self.facts.take();
        let body = replace(&mut self.body, no_body(self.alloc));
        self.clear_case();
        self.cases.push(CaseText { shown, body })
    }

    // Keeps the facts of a case, or that they are left out.
    fn set_facts(&mut self, facts: Option<List<NamedAtom>>)
        ensures { self.new ≡ spec.facts_read facts self.old }
    {
        self.clear();
        self.facts = facts;
    }

    // Cites a formula by its name and rank.
    fn cite_name(&mut self)
        ensures { self.new ≡ spec.passed pass.CiteName self.old }
    {
        let cite = match self.word.take() {
            Some(name) => Citation::Axiom(name, self.number),
            None => Citation::Refl,
        };
        self.set_cite(cite);
    }

    // Reads a symbol of the word with this arity.
    fn set_symbol(&mut self, arity: u32)
        ensures { self.new ≡ spec.symbol_read self.old.word arity self.old }
    {
        self.symbol = match self.word.take() {
            Some(name) => Symbol::Named(name, arity),
            None => Symbol::Equality,
        };
    }

    // Adds a value of the variable that the word and the number label.
    fn add_bind(&mut self, value: Name) -> Result<(), Memory>
        ensures { IfOk result (λ _. self.new ≡ spec.named naming.Bound value self.old) }
    {
        let rank = replace(&mut self.number, 0);
        match self.word.take() {
            Some(name) => self.binds.push(Binding {
                label: Label { name, rank },
                value,
            }),
            None => Ok(()),
        }
    }

    /// Does what is to be done at a token that tells nothing more. `Memory` is want of memory.
    pub fn act(&mut self, act: Act) -> Result<(), Memory>
        ensures { IfOk result (λ _. self.new ≡ spec.acted act self.old) }
    {
        match act {
            Act::Nothing => {}
            Act::BeginFirst => self.begin_text(1),
            Act::BeginSecond => self.begin_text(2),
            Act::TakeNames => self.take = self.take_names(),
            Act::BeginNames => self.names = List::new(self.alloc),
            Act::KeepArgs => self.instance = ArgsText::Listed(self.take_names()),
            Act::BeginBinds => self.binds = List::new(self.alloc),
            Act::KeepBinds => self.keep_binds(),
            Act::KeepFresh => self.fresh = self.take_names(),
            Act::EndStep => return self.end_step(),
            Act::EndBareStep => return self.end_bare_step(),
            Act::CiteRefl => self.set_cite(Citation::Refl),
            Act::CiteSym => self.set_cite(Citation::Sym),
            Act::CiteTrans => self.set_cite(Citation::Trans),
            Act::CiteNo => self.cite_no(),
            Act::CiteOr => self.cite_or(),
            Act::SetNegative => self.positive = false,
            Act::SetEquality => self.set_equality(),
            Act::ShowFalsum => self.set_line(Shown::Falsum),
            Act::BeginAtoms => self.begin_atoms(),
            Act::BeginParts => return self.begin_parts(),
            Act::AddPart => return self.add_part(),
            Act::AddAtom => return self.add_with_names(true),
            Act::AddNegated => return self.add_with_names(false),
            Act::EndAs => self.end_as(),
            Act::EndEfq => self.end_body(EndText::Efq),
            Act::EndGap => self.end_gap(),
            Act::BeginSplit => return self.begin_split(),
            Act::EndSplit => self.end_split(),
            Act::BeginCase => self.steps = List::new(self.alloc),
            Act::ShowCase => self.show_case(),
            Act::BareCase => self.set_facts(None),
        }
        Ok(())
    }

    /// Does what is to be done where nothing stands. `Memory` is want of memory.
    pub fn do_pass(&mut self, pass: Pass) -> Result<(), Memory>
        ensures { IfOk result (λ _. self.new ≡ spec.passed pass self.old) }
    {
        match pass {
            Pass::Nothing => {}
            Pass::BeginAtoms => self.begin_atoms(),
            Pass::CiteName => self.cite_name(),
            Pass::SetPositive => self.positive = true,
            Pass::ShowFacts => self.show_facts(),
            Pass::AddCase => return self.add_case(),
            Pass::SetRank => self.number = 1,
            Pass::ShowCases => return self.show_cases(),
            Pass::KeepAtoms => self.keep_atoms(),
            Pass::AddPlain => return self.add_predicate(true, List::new(self.alloc)),
            Pass::AddPlainNegated => return self.add_predicate(false, List::new(self.alloc)),
            Pass::KeepBound => self.keep_bound(),
            Pass::KeepCases => self.clear_case(),
        }
        Ok(())
    }

    /// Does what is to be done at a name. `Memory` is want of memory.
    pub fn read_name(&mut self, use_of: Naming, name: Name) -> Result<(), Memory>
        ensures { IfOk result (λ _. self.new ≡ spec.named use_of name self.old) }
    {
        match use_of {
            Naming::Listed => return self.names.push(name),
            Naming::Cited | Naming::Symbol | Naming::Label => self.word = Some(name),
            Naming::Bound => return self.add_bind(name),
            Naming::Predicate => {
                self.word = Some(name);
                self.names = List::new(self.alloc);
            }
            Naming::Equal => return self.add_equation(true, name),
            Naming::Unequal => return self.add_equation(false, name),
        }
        Ok(())
    }

    /// Does what is to be done at a number.
    pub fn read_number(&mut self, use_of: Counting, number: u32)
        ensures { self.new ≡ spec.numbered use_of number self.old }
    {
        match use_of {
            Counting::Arity => self.set_symbol(number),
            Counting::Place => self.cite_sub(number),
            _ => self.number = number,
        }
    }

    // Begins a text of this version.
    fn begin_text(&mut self, version: u32)
        ensures { self.new ≡ record self.old { version = version; steps = [] } }
    {
        self.version = version;
        self.steps = List::new(self.alloc);
    }

    // Keeps the values of variables as the instance.
    fn keep_binds(&mut self)
        ensures { self.new ≡ spec.acted act.KeepBinds self.old }
    {
        self.keep_bound();
        let binds = replace(&mut self.binds, List::new(self.alloc));
        self.instance = ArgsText::Named(binds);
    }

    // Forgets the word and the number.
    fn keep_bound(&mut self)
        ensures { self.new ≡ spec.passed pass.KeepBound self.old }
    {
        self.word = None;
        self.number = 0;
    }

    // Ends a step whose line is shown.
    fn end_step(&mut self) -> Result<(), Memory>
        ensures { IfOk result (λ _. self.new ≡ spec.acted act.EndStep self.old) }
    {
        let fresh = replace(&mut self.fresh, List::new(self.alloc));
        let line = self.line.take();
        self.add_step(fresh, line)
    }

    // Ends a step whose line is left out.
    fn end_bare_step(&mut self) -> Result<(), Memory>
        ensures { IfOk result (λ _. self.new ≡ spec.acted act.EndBareStep self.old) }
    {
        let fresh = self.take_names();
        self.add_step(fresh, None)
    }

    // Cites `$no` of the symbol.
    fn cite_no(&mut self)
        ensures { self.new ≡ spec.acted act.CiteNo self.old }
    {
        let symbol = self.take_symbol();
        self.set_cite(Citation::No(symbol));
    }

    // Cites `$or` of the symbol.
    fn cite_or(&mut self)
        ensures { self.new ≡ spec.acted act.CiteOr self.old }
    {
        let symbol = self.take_symbol();
        self.set_cite(Citation::Or(symbol));
    }

    // Cites `$sub` of the symbol at this place.
    fn cite_sub(&mut self, place: u32)
        ensures { self.new ≡ spec.numbered counting.Place place self.old }
    {
        let positive = self.positive;
        let symbol = self.take_symbol();
        self.set_cite(Citation::Sub {
            positive,
            symbol,
            place,
        });
    }

    // The symbol is equality.
    fn set_equality(&mut self)
        ensures { self.new ≡ spec.acted act.SetEquality self.old }
    {
        self.word = None;
        self.symbol = Symbol::Equality;
    }

    // Begins facts.
    fn begin_atoms(&mut self)
        ensures { self.new ≡ spec.with_atoms [] self.old }
    {
        self.keep_atoms();
        self.atoms = List::new(self.alloc);
    }

    // Forgets the word and the names.
    fn keep_atoms(&mut self)
        ensures { self.new ≡ spec.passed pass.KeepAtoms self.old }
    {
        self.word = None;
        self.names = List::new(self.alloc);
    }

    // Adds an atom of the word, with the names as its arguments.
    fn add_with_names(&mut self, positive: bool) -> Result<(), Memory>
        ensures { IfOk result (λ _. self.new ≡ spec.atom_added
            (values.atom_of positive self.old.names) self.old) }
    {
        let names = self.take_names();
        self.add_predicate(positive, names)
    }

    // Ends by a disjunct of the goal.
    fn end_as(&mut self)
        ensures { self.new ≡ spec.acted act.EndAs self.old }
    {
        let end = EndText::As {
            disjunct: self.number,
            args: self.take_names(),
        };
        self.end_body(end);
    }

    // Ends by a gap.
    fn end_gap(&mut self)
        ensures { self.new ≡ spec.acted act.EndGap self.old }
    {
        let end = EndText::Gap {
            within: self.number,
        };
        self.end_body(end);
    }

    // Keeps the facts of a case.
    fn show_case(&mut self)
        ensures { self.new ≡ spec.acted act.ShowCase self.old }
    {
        let atoms = self.take_atoms();
        self.set_facts(Some(atoms));
    }
}

impl<'a> Builder<TextPart, Tokens<'a>> for ScriptBuilder {
    ghost use Rattle.std.proofs.Common.{refl};
    ghost use Rattle.proof_text.specs.Grammar.{proof_texts};
    ghost use Rattle.proof_text.specs.Values.{Value, proof_text_making};
    ghost use Rattle.proof_text.specs.declared.builder.ScriptBuilder.{ScriptBuilder};
    ghost use Rattle.proof_text.specs.Effects.{acts, passes, effect};
    ghost use Rattle.proof_text.specs.EffectsLaw.{proof_text_building};

    ghost grammar = { proof_texts };

    ghost Value = { Value };

    ghost making = { λ tokens. proof_text_making tokens.tokens };

    ghost Built = { ScriptBuilder };

    ghost built = { λ builder. builder };

    ghost takes = { λ tokens. acts tokens.tokens };

    ghost passes = { passes };

    ghost effect = { λ tokens. effect tokens.tokens };

    ghost Watched = { λ part token. Unit {0} };

    fn take(
        &mut self,
        tokens: &Tokens<'a>,
        number: usize,
        part: TextPart,
        token: Token,
    ) -> Result<(), Memory>
        requires at { slice_get (marked tokens.now.tokens) number ≡ Some token }
        requires taken { IsTrue (grammar.takes part token) }
        ensures { IfOk result (λ _. self.new ≡ spec.acts tokens.now.tokens part token self.old) }
    {
        match part {
            TextPart::Taken(Taker::Fixed(_, act) | Taker::One(act) | Taker::Two(act)) => {
                self.act(act)
            }
            TextPart::Taken(Taker::Name(naming)) => {
                let name = name_at(self.alloc, tokens, number, naming, token)?;
                self.read_name(naming, name)
            }
            TextPart::Taken(Taker::Number(counting)) => {
                self.read_number(counting, token.mark.number());
                Ok(())
            }
            _ => Ok(()),
        }
    }

    fn pass(&mut self, part: TextPart) -> Result<(), Memory>
        ensures { IfOk result (λ _. self.new ≡ spec.passes part self.old) }
    {
        match part {
            TextPart::Row(rule) => self.do_pass(rule.passing()),
            TextPart::Taken(_) => Ok(()),
        }
    }

    ghost reads = { refl };

    ghost watches = { λ before after part token sees. tt };

    ghost building = { λ tokens. proof_text_building tokens.tokens };
}

impl Rule {
    // What is done where the rule stands for its empty row.
    fn passing(self) -> Pass
        ensures { result ≡ spec.passing self }
    {
        match self {
            Rule::Rank => Pass::SetRank,
            Rule::ListedBinds | Rule::MoreBinds => Pass::KeepBound,
            Rule::AfterTrue | Rule::AfterAtom => Pass::ShowFacts,
            Rule::Bars => Pass::ShowCases,
            Rule::MoreAtoms => Pass::KeepAtoms,
            Rule::AfterWord => Pass::AddPlain,
            Rule::AfterNegated => Pass::AddPlainNegated,
            Rule::MoreCases(_) => Pass::KeepCases,
            Rule::Does(pass) => pass,
            _ => Pass::Nothing,
        }
    }
}

// A body with no steps.
fn no_body(alloc: Global) -> BodyText
    ensures { result ≡ spec.no_body }
{
    BodyText {
        steps: List::new(alloc),
        end: EndText::Efq,
    }
}

// What stands where no split is open.
fn no_frame(alloc: Global) -> Frame
    ensures { result ≡ spec.no_frame }
{
    Frame {
        steps: List::new(alloc),
        split: 0,
        cases: List::new(alloc),
        facts: None,
    }
}
