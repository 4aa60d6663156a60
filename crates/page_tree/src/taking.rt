//! What a page's tree takes of each construct, or the lowest rule that the construct breaks.
ghost use Rattle.std.specs.Prelude.{◌≡◌, ◌≢◌, ◌&&◌, not, Err, option_map, encode_utf8};
ghost use Rattle.std.specs.List.{list_all};
ghost use Rattle.ix_base.specs.NcName.{is_white as is_white_byte};
ghost use Rattle.page_tree.specs.Break.{is_outside as is_outside_of};
ghost use Rattle.page_tree.specs.Machine.{outline_of};
ghost use Rattle.page_tree.specs.Page.{is_within as is_within_profile, is_encoding as is_known_encoding};
ghost use Rattle.page_constructs.specs.Tokens.{start, empty, close, words, refer, section, declaration, doctype};
ghost use Rattle.page_constructs.specs.Model.{tag_of, token_of};

use crate::refusal::Refusal;
use crate::setting::Setting;
use crate::tree::Building;
use ix_base::{Rule, is_white};
use page_constructs::{Tag, Token};

/// Version 1.0, and no encoding but UTF-8, ASCII or US-ASCII, in any ASCII case.
fn is_within(version: &str, encoding: Option<&str>) -> bool
    ensures { result ≡ is_within_profile version.now (option_map (λ e. e.now) encoding.entry) }
{
    if version != "1.0" {
        return false;
    }
    match encoding {
        Some(encoding) => is_encoding(encoding),
        None => true,
    }
}

fn is_encoding(name: &str) -> bool
    ensures { result ≡ is_known_encoding name.now }
{
    name.eq_ignore_ascii_case("utf-8")
        || name.eq_ignore_ascii_case("ascii")
        || name.eq_ignore_ascii_case("us-ascii")
}

fn is_all_white(text: &str) -> bool
    ensures { result ≡ list_all is_white_byte text.now }
{
    text.as_bytes().iter().all(|byte| is_white(*byte))
}

impl<'a> Building<'a> {
    ghost use Rattle.page_tree.specs.Buildings.{state_of};
    ghost use Rattle.page_tree.specs.Effects.{Takes};

    /// Takes a start tag.
    #[tactic(auto, unfolding(crate::specs::Break::broken_by, crate::specs::Machine::moved))]
    fn take_start_tag(&mut self, setting: &Setting<'a>, tag: &Tag<'a, '_>) -> Result<(), Refusal>
        ensures { Takes setting.now self.old self.new (start (tag_of tag.now)) result }
    {
        let own = self.judge(setting, tag)?;
        self.open(setting, own, tag)?;
        Ok(())
    }

    /// Takes an empty-element tag: its element begins and ends.
    #[tactic(auto, unfolding(crate::specs::Break::broken_by, crate::specs::Machine::moved))]
    fn take_empty_tag(&mut self, setting: &Setting<'a>, tag: &Tag<'a, '_>) -> Result<(), Refusal>
        ensures { Takes setting.now self.old self.new (empty (tag_of tag.now)) result }
    {
        self.take_start_tag(setting, tag)?;
        self.close(setting)?;
        Ok(())
    }

    /// Takes an end tag.
    #[tactic(auto, unfolding(crate::specs::Break::broken_by, crate::specs::Machine::moved))]
    fn take_end_tag(&mut self, setting: &Setting<'a>, name: &str) -> Result<(), Refusal>
        ensures { Takes setting.now self.old self.new (close name.now) result }
    {
        if !self.matches(name) {
            return Err(Refusal::Breaks(Rule::W5));
        }
        self.close(setting)?;
        Ok(())
    }

    /// Whether a text stands where only white space may.
    fn is_misplaced(&self, text: &str) -> bool
        ensures { result ≡ (is_outside_of (outline_of (state_of self.now)) && not (list_all is_white_byte text.now)) }
    {
        self.is_outside() && !is_all_white(text)
    }

    /// Takes a text.
    #[tactic(auto, unfolding(crate::specs::Break::broken_by, crate::specs::Machine::moved))]
    fn take_text(&mut self, text: &str) -> Result<(), Refusal>
        ensures { (setting : _) → Takes setting self.old self.new (words text.now) result }
    {
        if self.is_misplaced(text) {
            return Err(Refusal::Breaks(Rule::W12));
        }
        self.run(text)?;
        Ok(())
    }

    /// Takes a reference, with the character that it means, if it is a good one.
    #[tactic(auto, unfolding(crate::specs::Break::broken_by, crate::specs::Machine::moved))]
    fn take_reference(&mut self, meant: Option<char>) -> Result<(), Refusal>
        ensures { (setting : _) → Takes setting self.old self.new (refer (option_map encode_utf8 meant)) result }
    {
        let Some(ch) = meant else {
            return Err(Refusal::Breaks(Rule::W8));
        };
        if self.is_outside() {
            return Err(Refusal::Breaks(Rule::W12));
        }
        self.run_char(ch)?;
        Ok(())
    }

    /// Takes a CDATA section.
    #[tactic(auto, unfolding(crate::specs::Break::broken_by, crate::specs::Machine::moved))]
    fn take_cdata(&mut self, text: &str) -> Result<(), Refusal>
        ensures { (setting : _) → Takes setting self.old self.new (section text.now) result }
    {
        if self.is_outside() {
            return Err(Refusal::Breaks(Rule::W12));
        }
        self.run(text)?;
        Ok(())
    }

    /// Takes a declaration.
    #[tactic(auto, unfolding(crate::specs::Break::broken_by, crate::specs::Machine::moved))]
    fn take_declaration(&self, version: &str, encoding: Option<&str>) -> Result<(), Refusal>
        ensures takes { (setting : _) → Takes setting self.now self.now
            (declaration version.now (option_map (λ e. e.now) encoding.entry)) result }
        ensures certain { result ≢ Err Refusal.NoMemory }
    {
        if !is_within(version, encoding) {
            return Err(Refusal::Breaks(Rule::W11));
        }
        Ok(())
    }

    /// Takes a doctype.
    #[tactic(auto, unfolding(crate::specs::Break::broken_by, crate::specs::Machine::moved))]
    fn take_doctype(&mut self, has_subset: bool) -> Result<(), Refusal>
        ensures takes { (setting : _) → Takes setting self.old self.new (doctype has_subset) result }
        ensures certain { result ≢ Err Refusal.NoMemory }
    {
        if has_subset {
            return Err(Refusal::Breaks(Rule::W11));
        }
        if self.doctyped || self.is_rooted() {
            return Err(Refusal::Breaks(Rule::W12));
        }
        self.doctyped = true;
        Ok(())
    }

    /// Takes a construct: it is built in, or the lowest rule that it breaks is an error.
    #[tactic(auto, unfolding(crate::specs::Break::broken_by, crate::specs::Machine::moved))]
    pub(crate) fn take(
        &mut self,
        setting: &Setting<'a>,
        token: &Token<'a, '_>,
    ) -> Result<(), Refusal>
        ensures { Takes setting.now self.old self.new (token_of token.now) result }
    {
        match token {
            Token::StartTag(tag) => self.take_start_tag(setting, tag),
            Token::EmptyTag(tag) => self.take_empty_tag(setting, tag),
            Token::EndTag(name) => self.take_end_tag(setting, name),
            Token::Text(text) => self.take_text(text),
            Token::Reference(meant) => self.take_reference(*meant),
            Token::Cdata(text) => self.take_cdata(text),
            Token::Declaration { version, encoding } => self.take_declaration(version, *encoding),
            Token::Doctype { has_subset } => self.take_doctype(*has_subset),
            Token::Silent => Ok(()),
        }
    }
}
