// The parameters of a link, one after the other, as a form has them.
ghost use Rattle.std.specs.Prelude.{◌≡◌, ◌∷◌, [], OnOk, option_map};
ghost use Rattle.std.specs.Fmt.{decimal};
ghost use Rattle.std.specs.Option.{option_copied};
ghost use Rattle.lrs_names.specs.Ids.{id_text};
ghost use Rattle.xapi_query.specs.Links.{Appends, filter_pairs, format_pair, limit_pair, page_pairs, pair_if, pair_if_true, query_pairs, related_pairs, time_pairs};

use crate::query::{Given, MOST_OF_PAGE, Query};
use form_urlencoded::Serializer;
use lrs_json::{Memory, Text, utf8_text};
use lrs_names::{Id, Iri};
use std::alloc::Global;
use xapi_statement::Format;

/// The parameters of a query.
pub fn put_query(alloc: Global, form: &mut Serializer, query: &Query) -> Result<(), Memory>
    ensures { OnOk result (Appends form.old form.new (query_pairs query.now)) }
{
    put_filters(form, query)?;
    put_related(form, query)?;
    put_times(form, query)?;
    put_page(alloc, form, query)
}

fn put_filters(form: &mut Serializer, query: &Query) -> Result<(), Memory>
    ensures { OnOk result (Appends form.old form.new (filter_pairs query.now)) }
{
    put_if(form, "agent", given_text(&query.agent))?;
    put_if(form, "verb", iri_text(&query.verb))?;
    put_if(form, "activity", iri_text(&query.activity))?;
    put_id(form, "registration", &query.registration)
}

fn put_related(form: &mut Serializer, query: &Query) -> Result<(), Memory>
    ensures { OnOk result (Appends form.old form.new (related_pairs query.now)) }
{
    put_if_true(form, "related_activities", query.related_activities)?;
    put_if_true(form, "related_agents", query.related_agents)
}

fn put_times(form: &mut Serializer, query: &Query) -> Result<(), Memory>
    ensures { OnOk result (Appends form.old form.new (time_pairs query.now)) }
{
    put_if(form, "since", given_text(&query.since))?;
    put_if(form, "until", given_text(&query.until))
}

fn put_page(alloc: Global, form: &mut Serializer, query: &Query) -> Result<(), Memory>
    ensures { OnOk result (Appends form.old form.new (page_pairs query.now)) }
{
    put_limit(alloc, form, query.page)?;
    put_if_true(form, "ascending", query.ascending)?;
    put_format(form, query.format)
}

fn put_limit(alloc: Global, form: &mut Serializer, size: u32) -> Result<(), Memory>
    ensures { OnOk result (Appends form.old form.new (limit_pair size)) }
{
    if size == MOST_OF_PAGE {
        Ok(())
    } else {
        put_number(alloc, form, "limit", u64::from(size))
    }
}

fn put_format(form: &mut Serializer, format: Format) -> Result<(), Memory>
    ensures { OnOk result (Appends form.old form.new (format_pair format)) }
{
    match format {
        Format::Exact => Ok(()),
        Format::Ids => put(form, "format", "ids"),
    }
}

fn put_if_true(form: &mut Serializer, name: &str, asked: bool) -> Result<(), Memory>
    ensures { OnOk result (Appends form.old form.new (pair_if_true name.now asked)) }
{
    if asked {
        put(form, name, "true")
    } else {
        Ok(())
    }
}

fn put_if(form: &mut Serializer, name: &str, text: Option<&Text>) -> Result<(), Memory>
    ensures { OnOk result (Appends form.old form.new (pair_if name.now (option_copied text.entry))) }
{
    match text {
        Some(text) => put(form, name, text.as_str()),
        None => Ok(()),
    }
}

fn put_id(form: &mut Serializer, name: &str, id: &Option<Id>) -> Result<(), Memory>
    ensures { OnOk result (Appends form.old form.new (pair_if name.now (option_map id_text id.now))) }
{
    match id {
        Some(id) => put(form, name, utf8_text(&id.text())),
        None => Ok(()),
    }
}

/// A number in decimal digits.
pub fn put_number(
    alloc: Global,
    form: &mut Serializer,
    name: &str,
    number: u64,
) -> Result<(), Memory>
    ensures { OnOk result (Appends form.old form.new ((name.now, decimal number) ∷ [])) }
{
    let digits = number.to_string(alloc)?;
    put(form, name, digits.as_str())
}

fn put(form: &mut Serializer, name: &str, value: &str) -> Result<(), Memory>
    ensures { OnOk result (Appends form.old form.new ((name.now, value.now) ∷ [])) }
{
    form.append_pair(name, value)?;
    Ok(())
}

fn given_text<T>(given: &Option<Given<T>>) -> Option<&Text>
    ensures { option_copied result ≡ option_map (λ g. g.text) given.now }
{
    match given {
        Some(given) => Some(&given.text),
        None => None,
    }
}

fn iri_text(iri: &Option<Iri>) -> Option<&Text>
    ensures { option_copied result ≡ iri.now }
{
    match iri {
        Some(iri) => Some(iri.text()),
        None => None,
    }
}
