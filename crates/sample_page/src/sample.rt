//! The pages of a sample.
ghost use Rattle.std.specs.Prelude.{◌≡◌, ◌++◌, ◌≤◌, map, IfOk, OnOk};
ghost use Rattle.ix_base.specs.declared.limits.TheConstants.{MOST_FACTS};
ghost use Rattle.sample_page.specs.Sample as sample;

use ix_base::{List, MemPage, NoMemory, Text};
use std::alloc::Global;

/// The base of the pages of a sample.
pub const SAMPLE_BASE: &str = "http://sample.example/";

/// The names of the pages of a sample.
pub fn sample_names(alloc: Global) -> Result<Vec<Text>, NoMemory>
    ensures { IfOk result (λ v. v.items ≡ sample.sample_names) }
{
    let first = Text::of(alloc, "s0.html")?;
    let second = Text::of(alloc, "s1.html")?;
    let third = Text::of(alloc, "s2.html")?;
    let last = Text::of(alloc, "s3.html")?;
    Ok(vec![in alloc; first, second, third, last]?)
}

/// The root's start tag.
#[tactic(auto, unfolding(crate::specs::Sample::start_text))]
fn start() -> &'static [u8]
    ensures { result.now ≡ sample.start_text }
{
    b"<p xmlns:ix=\"http://www.xbrl.org/2013/inlineXBRL\" xmlns:link=\"http://www.xbrl.org/2003/linkbase\" \
xmlns:xlink=\"http://www.w3.org/1999/xlink\" xmlns:xbrli=\"http://www.xbrl.org/2003/instance\" xmlns:s=\"http://sample.example/s\">"
}

/// A reference to a schema, and the context of all facts.
#[tactic(auto, unfolding(crate::specs::Sample::header_text))]
fn header() -> &'static [u8]
    ensures { result.now ≡ sample.header_text }
{
    b"<ix:header><ix:references><link:schemaRef xlink:type=\"simple\" xlink:href=\"s.xsd\"/></ix:references>\
<ix:resources><xbrli:context id=\"c\"><xbrli:entity><xbrli:identifier scheme=\"http://sample.example/\">1</xbrli:identifier>\
</xbrli:entity><xbrli:period><xbrli:forever/></xbrli:period></xbrli:context></ix:resources></ix:header>"
}

/// Adds what stands in front of the facts of a page.
fn push_front(text: &mut Vec<u8>, page: u32) -> Result<(), NoMemory>
    ensures { OnOk result (text.new.items ≡ text.old.items ++ sample.front_text page) }
{
    text.extend_from_slice(start())?;
    if page == 0 {
        text.extend_from_slice(header())?;
    }
    Ok(())
}

/// Adds the fact of this number, up to where it goes on.
#[tactic(auto, unfolding(crate::specs::Sample::fact_text))]
fn push_fact(alloc: Global, text: &mut Vec<u8>, number: u32) -> Result<(), NoMemory>
    ensures { OnOk result (text.new.items ≡ text.old.items ++ sample.fact_text number) }
{
    let fact = format!(in alloc;
        "<ix:nonNumeric name=\"s:T\" contextRef=\"c\" id=\"f{number}\" continuedAt=\"k{number}\">a{number}</ix:nonNumeric>"
    )?;
    text.extend_from_slice(fact.as_bytes())?;
    Ok(())
}

/// Adds what it goes on with.
#[tactic(auto, unfolding(crate::specs::Sample::more_text))]
fn push_more(alloc: Global, text: &mut Vec<u8>, number: u32) -> Result<(), NoMemory>
    ensures { OnOk result (text.new.items ≡ text.old.items ++ sample.more_text number) }
{
    let more = format!(in alloc; "<ix:continuation id=\"k{number}\">b{number}</ix:continuation>")?;
    text.extend_from_slice(more.as_bytes())?;
    Ok(())
}

/// Adds what a fact puts on a page: it begins on one page, and goes on on the next.
fn put_on(alloc: Global, text: &mut Vec<u8>, page: u32, number: u32) -> Result<(), NoMemory>
    requires { number ≤ MOST_FACTS }
    ensures { OnOk result (text.new.items ≡ text.old.items ++ sample.put_on page number) }
{
    if number % 4 == page {
        push_fact(alloc, text, number)?;
    }
    if (number + 1) % 4 == page {
        push_more(alloc, text, number)?;
    }
    Ok(())
}

/// Adds what all facts put on a page.
#[tactic(auto, unfolding(crate::specs::Sample::all_put_on))]
fn put_all_on(alloc: Global, text: &mut Vec<u8>, page: u32, facts: u32) -> Result<(), NoMemory>
    requires { facts ≤ MOST_FACTS }
    ensures { OnOk result (text.new.items ≡ text.old.items ++ sample.all_put_on page facts) }
{
    for i in 0..facts {
        put_on(alloc, text, page, i + 1)?;
    }
    Ok(())
}

/// The page of this number in the sample of so many facts.
#[tactic(auto, unfolding(crate::specs::Sample::sample_page))]
fn sample_page(alloc: Global, name: &str, page: u32, facts: u32) -> Result<MemPage, NoMemory>
    requires { facts ≤ MOST_FACTS }
    ensures name { IfOk result (λ p. p.name ≡ name.now) }
    ensures bytes { IfOk result (λ p. p.bytes ≡ sample.sample_page facts page) }
{
    let mut text = Vec::new(alloc);
    push_front(&mut text, page)?;
    put_all_on(alloc, &mut text, page, facts)?;
    text.extend_from_slice(b"</p>")?;
    Ok(MemPage {
        name: Text::of(alloc, name)?,
        bytes: List::of(text),
    })
}

/// The four pages of the sample of so many facts.
pub fn sample_pages(alloc: Global, facts: u32) -> Result<Vec<MemPage>, NoMemory>
    requires { facts ≤ MOST_FACTS }
    ensures names { IfOk result (λ v. map (λ p. p.name) v.items ≡ sample.sample_names) }
    ensures bytes { IfOk result (λ v. map (λ p. p.bytes) v.items ≡ sample.sample_bytes facts) }
{
    let first = sample_page(alloc, "s0.html", 0, facts)?;
    let second = sample_page(alloc, "s1.html", 1, facts)?;
    let third = sample_page(alloc, "s2.html", 2, facts)?;
    let last = sample_page(alloc, "s3.html", 3, facts)?;
    Ok(vec![in alloc; first, second, third, last]?)
}
