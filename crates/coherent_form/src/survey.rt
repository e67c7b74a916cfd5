ghost use Rattle.std.specs.Prelude.{◌≡◌, []};
ghost use Rattle.coherent_form.specs.Surveys.{arguments_of};
ghost use Rattle.coherent_form.specs.Surveys.{first_told, placed_told, survey_product, survey_sum, survey_placed, survey_bound, offending, account_of as account_at, members_of as members_at, members_more, plain_account, false_account, conjunction_account, disjunction_account, universal_account, existential_account, binary_account, negation_account};

use crate::counts::Counts;
use logic_core::{Formula, Op};

/// What the reading of a formula in a role gives: the first node that offends, if any, numbered
/// from the formula as node 0, and the counts of the reading. A number above 4,294,967,295 is told
/// as 4,294,967,295.
#[derive(Clone, Copy, Debug)]
pub(crate) struct Survey {
    pub(crate) offender: Option<u32>,
    pub(crate) counts: Counts,
}

/// What the reading of a formula gives in each role, and the number of its nodes.
#[derive(Clone, Copy, Debug)]
pub(crate) struct Account {
    pub(crate) nodes: u32,
    pub(crate) conjunction: Survey,
    pub(crate) premise: Survey,
    pub(crate) conclusion: Survey,
    pub(crate) rule: Survey,
}

/// What the members of a formula give together: as conjunctions, as premises of which all or any
/// are true, as conclusions and as rules. The formula is node 0.
#[derive(Clone, Copy, Debug)]
pub(crate) struct Members {
    pub(crate) nodes: u32,
    pub(crate) conjunctions: Survey,
    pub(crate) choices: Survey,
    pub(crate) offers: Survey,
    pub(crate) conclusions: Survey,
    pub(crate) rules: Survey,
}

/// The lesser of two nodes.
fn first(one: Option<u32>, other: Option<u32>) -> Option<u32>
    ensures { result ≡ first_told one other }
{
    match (one, other) {
        (Some(one), Some(other)) => Some(if one < other { one } else { other }),
        (Some(one), None) => Some(one),
        (None, other) => other,
    }
}

fn placed(at: u32, node: Option<u32>) -> Option<u32>
    ensures { result ≡ placed_told at node }
{
    match node {
        Some(node) => Some(at.saturating_add(node)),
        None => None,
    }
}

impl Survey {
    /// The formula itself offends.
    fn offends() -> Survey
        ensures { result ≡ offending }
    {
        Survey {
            offender: Some(0),
            counts: Counts::nothing(),
        }
    }

    /// Each of one reading with each of another.
    fn product(self, other: Survey) -> Survey
        ensures { result ≡ survey_product self other }
    {
        Survey {
            offender: first(self.offender, other.offender),
            counts: self.counts.product(other.counts),
        }
    }

    /// All of one reading and all of another.
    fn sum(self, other: Survey) -> Survey
        ensures { result ≡ survey_sum self other }
    {
        Survey {
            offender: first(self.offender, other.offender),
            counts: self.counts.sum(other.counts),
        }
    }

    /// The reading of a part which is that node of the whole.
    fn placed(self, at: u32) -> Survey
        ensures { result ≡ survey_placed at self }
    {
        Survey {
            offender: placed(at, self.offender),
            counts: self.counts,
        }
    }

    /// The reading of a quantified formula, by that of its body.
    fn bound(self, count: usize) -> Survey
        ensures { result ≡ survey_bound count self }
    {
        Survey {
            offender: placed(1, self.offender),
            counts: self.counts.bound(count),
        }
    }
}

impl Members {
    fn none() -> Members
        ensures { result ≡ members_at [] }
    {
        let nothing = Survey {
            offender: None,
            counts: Counts::nothing(),
        };
        let none = Survey {
            offender: None,
            counts: Counts::none(),
        };
        Members {
            nodes: 1,
            conjunctions: nothing,
            choices: nothing,
            offers: none,
            conclusions: nothing,
            rules: none,
        }
    }

    /// One member more.
    fn with(self, member: Account) -> Members
        ensures { result ≡ members_more self member }
    {
        let at = self.nodes;
        let premise = member.premise.placed(at);
        Members {
            nodes: at.saturating_add(member.nodes),
            conjunctions: self.conjunctions.product(member.conjunction.placed(at)),
            choices: self.choices.product(premise),
            offers: self.offers.sum(premise),
            conclusions: self.conclusions.product(member.conclusion.placed(at)),
            rules: self.rules.sum(member.rule.placed(at)),
        }
    }

    fn conjunction(self) -> Account
        ensures { result ≡ conjunction_account self }
    {
        Account {
            nodes: self.nodes,
            conjunction: self.conjunctions,
            premise: self.choices,
            conclusion: self.conjunctions,
            rule: match self.conjunctions.offender {
                Some(_) => self.rules,
                None => self.conjunctions,
            },
        }
    }

    fn disjunction(self) -> Account
        ensures { result ≡ disjunction_account self }
    {
        Account {
            nodes: self.nodes,
            conjunction: Survey::offends(),
            premise: self.offers,
            conclusion: self.conclusions,
            rule: self.conclusions,
        }
    }
}

impl Account {
    /// A conjunction without members that are nodes.
    fn plain(counts: Counts) -> Account
        ensures { result ≡ plain_account counts }
    {
        let survey = Survey {
            offender: None,
            counts,
        };
        Account {
            nodes: 1,
            conjunction: survey,
            premise: survey,
            conclusion: survey,
            rule: survey,
        }
    }

    fn falsehood() -> Account
        ensures { result ≡ false_account }
    {
        let fits = Survey {
            offender: None,
            counts: Counts::nothing(),
        };
        Account {
            nodes: 1,
            conjunction: Survey::offends(),
            premise: Survey::offends(),
            conclusion: fits,
            rule: fits,
        }
    }

    /// A negation, by the nodes of its body and the number of arguments where that is an atom.
    fn negation(arguments: Option<usize>, nodes: u32) -> Account
        ensures { result ≡ negation_account arguments nodes }
    {
        let survey = match arguments {
            Some(arguments) => Survey {
                offender: None,
                counts: Counts::atom(arguments),
            },
            None => Survey {
                offender: Some(0),
                counts: Counts::atom(0),
            },
        };
        Account {
            nodes: nodes.saturating_add(1),
            conjunction: survey,
            premise: survey,
            conclusion: survey,
            rule: survey,
        }
    }

    fn universal(count: usize, body: Account) -> Account
        ensures { result ≡ universal_account count body }
    {
        Account {
            nodes: body.nodes.saturating_add(1),
            conjunction: Survey::offends(),
            premise: Survey::offends(),
            conclusion: Survey::offends(),
            rule: body.rule.bound(count),
        }
    }

    fn existential(count: usize, body: Account) -> Account
        ensures { result ≡ existential_account count body }
    {
        let conclusion = body.conclusion.bound(count);
        Account {
            nodes: body.nodes.saturating_add(1),
            conjunction: Survey::offends(),
            premise: body.premise.bound(count),
            conclusion,
            rule: conclusion,
        }
    }

    fn binary(op: Op, left: Account, right: Account) -> Account
        ensures { result ≡ binary_account op left right }
    {
        let at = left.nodes.saturating_add(1);
        let (first, second) = (left.premise.placed(1), right.premise.placed(at));
        let (left_rule, right_rule) = (left.rule.placed(1), right.rule.placed(at));
        let rule = match op {
            Op::Implies => first.product(right_rule),
            Op::Implied => second.product(left_rule),
            Op::Iff => first.product(right_rule).sum(second.product(left_rule)),
            _ => Survey::offends(),
        };
        Account {
            nodes: at.saturating_add(right.nodes),
            conjunction: Survey::offends(),
            premise: Survey::offends(),
            conclusion: Survey::offends(),
            rule,
        }
    }
}

/// The number of arguments of an atom; `None` for any other formula.
fn atom_arguments(formula: &Formula) -> Option<usize>
    ensures { result ≡ arguments_of formula.now }
{
    match formula {
        Formula::Pred(_, terms) => Some(terms.len()),
        Formula::Equal(_, _) => Some(2),
        _ => None,
    }
}

#[cycle(accounts)]
fn members_of(members: &[Formula]) -> Members
    ensures { result ≡ members_at members.now }
{
    let mut all = Members::none();
    for member in members {
        all = all.with(account_of(member));
    }
    all
}

/// What the reading of a formula gives in each role, in one pass over its nodes. It takes no
/// memory.
#[cycle(accounts)]
pub(crate) fn account_of(formula: &Formula) -> Account
    ensures { result ≡ account_at formula.now }
{
    match formula {
        Formula::True => Account::plain(Counts::nothing()),
        Formula::False => Account::falsehood(),
        Formula::Pred(_, terms) => Account::plain(Counts::atom(terms.len())),
        Formula::Equal(_, _) => Account::plain(Counts::atom(2)),
        Formula::Not(body) => {
            Account::negation(atom_arguments(body.get()), account_of(body.get()).nodes)
        }
        Formula::And(members) => members_of(members.as_slice()).conjunction(),
        Formula::Or(members) => members_of(members.as_slice()).disjunction(),
        Formula::Binary(op, left, right) => {
            Account::binary(*op, account_of(left.get()), account_of(right.get()))
        }
        Formula::ForAll(names, body) => Account::universal(names.len(), account_of(body.get())),
        Formula::Exists(names, body) => Account::existential(names.len(), account_of(body.get())),
    }
}
