// What stands before a picture, and its lines of text.
ghost use Rattle.std.specs.Prelude.{◌≡◌, ◌++◌, ◌≤◌, drop, length, max, min, take, OnOk};
ghost use Rattle.lt_draw.specs.Heading.{drawn_frame, red_title, drawn_titles, style_text, drawn_opening, drawn_paper, drawn_head, drawn_line, drawn_lines, title_lines, fact_lines, red_lines, drawn_heading};

use crate::sizes::{bounded_width, line_count, per_line, warning};
use lt_base::{List, Memory};
use lt_diagram::Picture;
use lt_svg::{enclosed, fill};

#[tactic(auto, unfolding(crate::specs::Heading::drawn_frame))]
fn write_frame(out: &mut List<u8>, width: u64, height: u64) -> Result<(), Memory>
    ensures { OnOk result (out.new ≡ out.old ++ drawn_frame width height) }
{
    fill(
        out,
        b"<svg xmlns=\"http://www.w3.org/2000/svg\" width=\"%\" height=\"%\" viewBox=\"0 0 % %\" role=\"img\" aria-labelledby=\"t d\">\n",
        &[width, height, width, height],
    )
}

#[tactic(auto, unfolding(crate::specs::Heading::red_title))]
fn write_red(out: &mut List<u8>, text: &[u8]) -> Result<(), Memory>
    ensures { OnOk result (out.new ≡ out.old ++ red_title text.now) }
{
    if text.len() == 0 {
        return Ok(());
    }
    enclosed(out, b": ", text, b"")
}

// The title that is read aloud: with the red lines, where there are any.
#[tactic(auto, unfolding(crate::specs::Heading::drawn_titles))]
fn write_titles(out: &mut List<u8>, title: &[u8], red: &[u8], facts: &[u8]) -> Result<(), Memory>
    ensures { OnOk result (out.new ≡ out.old ++ drawn_titles title.now red.now facts.now) }
{
    enclosed(out, b"<title id=\"t\">", title, b"")?;
    write_red(out, red)?;
    enclosed(out, b"</title>\n<desc id=\"d\">", facts, b"</desc>\n")
}

// The style, light and dark, and the heads of arrows.
#[tactic(auto, unfolding(crate::specs::Heading::style_text))]
fn write_style(out: &mut List<u8>) -> Result<(), Memory>
    ensures { OnOk result (out.new ≡ out.old ++ style_text) }
{
    out.extend(
        b"<style>text{font:11px 'DejaVu Sans Mono',Menlo,Consolas,'Liberation Mono',monospace}.b{font-weight:bold}.s{font-size:10px}.n{font-size:9px;font-weight:bold}.e{text-anchor:end}.m{text-anchor:middle}.gr{stroke-opacity:.3}.nl{stroke-width:1}.no{stroke-width:1.5}.se{stroke-width:1.6}.da,.em,.ac,.lo,.bad{fill:none}.da{stroke-width:1.5}.em{stroke-width:1}.ac{stroke-width:1.1;stroke-dasharray:4 3}.w{stroke-dasharray:1 3}.lo{stroke-width:1.8}.bad{stroke-width:2}.bd{stroke-dasharray:6 4}.badz{fill-opacity:.1}.v{stroke-width:1}.hl{paint-order:stroke;stroke-width:2.5;stroke-linejoin:round}.th{stroke-width:.8}\n",
    )?;
    out.extend(
        b".bg{fill:#ffffff}.i0{fill:#dcebfa}.i1{fill:#fdf0c8}.i2{fill:#dadbde}.gr{stroke:#8a939c}.nl{stroke:#6b747d}.tx{fill:#1c2126}.ts{fill:#59626b}.ex{fill:#12304a}.exn{fill:#ffffff}.no{stroke:#3d464f}.se{stroke:#12304a}.se{fill:#ffffff}.da{stroke:#0069ab}.dah{fill:#0069ab}.em{stroke:#6f9fc2}.emh{fill:#6f9fc2}.ac{stroke:#6f6857}.ach{fill:#6f6857}.lo{stroke:#1c2126}.bad{stroke:#c4170c}.badt{fill:#c4170c}.badz{fill:#c4170c}.hl{stroke:#ffffff}\n",
    )?;
    out.extend(
        b"@media(prefers-color-scheme:dark){.bg{fill:#15191e}.i0{fill:#17344f}.i1{fill:#463810}.i2{fill:#3d4146}.gr{stroke:#8a939c}.nl{stroke:#96a0aa}.tx{fill:#e6eaee}.ts{fill:#a5afb9}.ex{fill:#dbe9f6}.exn{fill:#10202e}.no{stroke:#c3ccd4}.se{stroke:#dbe9f6}.se{fill:#15191e}.da{stroke:#5bb8f2}.dah{fill:#5bb8f2}.em{stroke:#5585a6}.emh{fill:#5585a6}.ac{stroke:#b9b3a4}.ach{fill:#b9b3a4}.lo{stroke:#e6eaee}.bad{stroke:#ff7a5c}.badt{fill:#ff7a5c}.badz{fill:#ff7a5c}.hl{stroke:#15191e}}</style>\n",
    )?;
    out.extend(
        b"<defs><marker id=\"hda\" viewBox=\"0 0 8 8\" refX=\"7\" refY=\"4\" markerWidth=\"9\" markerHeight=\"9\" markerUnits=\"userSpaceOnUse\" orient=\"auto\"><path d=\"M0 1L8 4L0 7z\" class=\"dah\"/></marker>\n<marker id=\"hem\" viewBox=\"0 0 8 8\" refX=\"7\" refY=\"4\" markerWidth=\"7\" markerHeight=\"7\" markerUnits=\"userSpaceOnUse\" orient=\"auto\"><path d=\"M0 1L8 4L0 7z\" class=\"emh\"/></marker>\n<marker id=\"hac\" viewBox=\"0 0 8 8\" refX=\"7\" refY=\"4\" markerWidth=\"8\" markerHeight=\"8\" markerUnits=\"userSpaceOnUse\" orient=\"auto\"><path d=\"M0 1L8 4L0 7z\" class=\"ach\"/></marker>\n<marker id=\"hbad\" viewBox=\"0 0 8 8\" refX=\"7\" refY=\"4\" markerWidth=\"11\" markerHeight=\"11\" markerUnits=\"userSpaceOnUse\" orient=\"auto\"><path d=\"M0 1L8 4L0 7z\" class=\"badt\"/></marker>\n</defs>\n",
    )
}

#[tactic(auto, unfolding(crate::specs::Heading::drawn_opening))]
fn write_opening(out: &mut List<u8>, picture: &Picture, height: u64) -> Result<(), Memory>
    ensures { OnOk result (out.new ≡ out.old ++ drawn_opening picture.now height) }
{
    write_frame(out, u64::from(bounded_width(picture.width)), height)?;
    write_titles(
        out,
        picture.title.as_slice(),
        warning(picture),
        picture.facts.as_slice(),
    )
}

// The ground of a picture.
#[tactic(auto, unfolding(crate::specs::Heading::drawn_paper))]
fn write_paper(out: &mut List<u8>, picture: &Picture, height: u64) -> Result<(), Memory>
    ensures { OnOk result (out.new ≡ out.old ++ drawn_paper picture.now height) }
{
    fill(
        out,
        b"<rect width=\"%\" height=\"%\" class=\"bg\"/>\n",
        &[u64::from(bounded_width(picture.width)), height],
    )
}

/// Appends all that stands before what is drawn.
#[tactic(auto, unfolding(crate::specs::Heading::drawn_head))]
pub(crate) fn write_head(out: &mut List<u8>, picture: &Picture, height: u64) -> Result<(), Memory>
    ensures { OnOk result (out.new ≡ out.old ++ drawn_head picture.now height) }
{
    write_opening(out, picture, height)?;
    write_style(out)?;
    write_paper(out, picture, height)
}

#[tactic(auto, unfolding(crate::specs::Heading::drawn_line))]
fn write_line(out: &mut List<u8>, y: u64, class: &[u8], text: &[u8]) -> Result<(), Memory>
    ensures { OnOk result (out.new ≡ out.old ++ drawn_line y class.now text.now) }
{
    fill(out, b"<text x=\"12\" y=\"%\" class=\"", &[y])?;
    enclosed(out, class, text, b"</text>\n")
}

// How much of a text stands in its first line.
fn line_cut(per: u32, text: &[u8]) -> usize
    ensures value { result ≡ min (max per 1) (length text.now) }
    ensures within { result ≤ length text.now }
{
    (per.max(1) as usize).min(text.len())
}

fn front(text: &[u8], cut: usize) -> &[u8]
    requires { cut ≤ length text.now }
    ensures { result.now ≡ take cut text.now }
{
    &text[..cut]
}

fn behind(text: &[u8], cut: usize) -> &[u8]
    requires { cut ≤ length text.now }
    ensures { result.now ≡ drop cut text.now }
{
    &text[cut..]
}

// Appends a text in lines of so many characters, from one line on.
fn write_lines(
    out: &mut List<u8>,
    per: u32,
    first: u32,
    class: &[u8],
    text: &[u8],
) -> Result<(), Memory>
    ensures { OnOk result (out.new ≡ out.old ++ drawn_lines per first class.now text.now) }
{
    let mut rest = text;
    let mut y = 24 + 16 * u64::from(first);
    'lines: for k in 0..40u32 {
        let left = rest.len();
        if left == 0 {
            return Ok(());
        }
        let cut = line_cut(per, rest);
        write_line(out, y, class, front(rest, cut))?;
        rest = behind(rest, cut);
        y += 16;
    }
    Ok(())
}

#[tactic(auto, unfolding(crate::specs::Heading::title_lines))]
fn write_title_lines(out: &mut List<u8>, picture: &Picture) -> Result<(), Memory>
    ensures { OnOk result (out.new ≡ out.old ++ title_lines picture.now) }
{
    let per = per_line(picture.width);
    write_lines(out, per, 0, b"tx b\">", picture.title.as_slice())
}

#[tactic(auto, unfolding(crate::specs::Heading::fact_lines))]
fn write_fact_lines(out: &mut List<u8>, picture: &Picture) -> Result<(), Memory>
    ensures { OnOk result (out.new ≡ out.old ++ fact_lines picture.now) }
{
    let per = per_line(picture.width);
    let first = line_count(per, picture.title.as_slice());
    write_lines(out, per, first, b"ts\">", picture.facts.as_slice())
}

#[tactic(auto, unfolding(crate::specs::Heading::red_lines))]
fn write_red_lines(out: &mut List<u8>, picture: &Picture) -> Result<(), Memory>
    ensures { OnOk result (out.new ≡ out.old ++ red_lines picture.now) }
{
    let per = per_line(picture.width);
    let second = line_count(per, picture.title.as_slice());
    let first = second + line_count(per, picture.facts.as_slice());
    write_lines(out, per, first, b"badt b\">", warning(picture))
}

/// Appends the title, the facts, and in red what is refused.
#[tactic(auto, unfolding(crate::specs::Heading::drawn_heading))]
pub(crate) fn write_heading(out: &mut List<u8>, picture: &Picture) -> Result<(), Memory>
    ensures { OnOk result (out.new ≡ out.old ++ drawn_heading picture.now) }
{
    write_title_lines(out, picture)?;
    write_fact_lines(out, picture)?;
    write_red_lines(out, picture)
}
