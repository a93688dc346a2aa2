//! How the page looks. Each colour has one meaning and a name.

use text9::Markup;

/// The colours, light and dark. Only what breaks a rule is red.
const COLOURS: &str = "\
    :root{color-scheme:light dark;--bg:#ffffff;--ink:#1b1d20;--soft:#5c6168;--line:#d5d8dc;--grid:#e9ebee;--bad:#b00020;--link:#1d4e7c;--mid:#1d4e7c;--great:#d3dfea;--gline:#6f94b5;--state:#3d5a76;--half:#7a95af;--traf:#e6e9ec;--tline:#7d848c}\n\
    @media (prefers-color-scheme:dark){:root{--bg:#14171a;--ink:#e4e6e8;--soft:#9ba1a8;--line:#3a3f45;--grid:#24282d;--bad:#ff7b72;--link:#9cc7f0;--mid:#9cc7f0;--great:#2b3c4d;--gline:#5f86aa;--state:#7199bf;--half:#547391;--traf:#272c32;--tline:#8b939b}}\n\
";

/// The type, and what stands anywhere on the page.
const TYPE: &str = "\
    *{box-sizing:border-box}\n\
    body{margin:0;background:var(--bg);color:var(--ink);font:15px/1.45 system-ui,\"Segoe UI\",Roboto,\"Helvetica Neue\",Arial,\"DejaVu Sans\",sans-serif;font-variant-numeric:tabular-nums}\n\
    main{max-width:1280px;margin:0 auto;padding:24px 32px 40px}\n\
    code,pre{font:12.5px/1.5 ui-monospace,\"DejaVu Sans Mono\",Menlo,Consolas,monospace}\n\
    a{color:var(--link)}\n\
    p{margin:8px 0;max-width:48em}\n\
    h1{font-size:34px;font-weight:600;line-height:1.2;margin:0}\n\
    h2{font-size:19px;font-weight:600;margin:0 0 8px}\n\
    section,footer{margin-top:40px;padding-top:12px;border-top:1px solid var(--line)}\n\
    summary{cursor:pointer}\n\
    figure{margin:0}\n\
    .bad{color:var(--bad)}\n\
    .soft,.note{color:var(--soft)}\n\
    .note{font-size:13px;max-width:66em}\n\
    .note b{color:inherit}\n\
    .hidden{position:absolute;width:1px;height:1px;overflow:hidden;clip-path:inset(50%);white-space:nowrap}\n\
    footer{font-size:13px;color:var(--soft)}\n\
";

/// The head of the page.
const HEAD: &str = "\
    header>p,header h1{overflow-wrap:anywhere}\n\
    .file{font-size:17px;color:var(--soft);margin:0}\n\
    .lead{font-size:17px;margin:6px 0 16px;max-width:60em}\n\
    .facts{display:flex;flex-wrap:wrap;gap:8px 28px;margin:0 0 10px}\n\
    .facts dl{margin:0}\n\
    .facts dt{font-size:13px;color:var(--soft)}\n\
    .facts dd{margin:0;overflow-wrap:anywhere}\n\
    .facts code{color:var(--soft)}\n\
    .signs{margin:0 0 14px;padding:2px 14px;border-left:3px solid var(--ink)}\n\
    .signs ul{margin:4px 0;padding-left:1.2em}\n\
    nav{display:flex;flex-wrap:wrap;gap:4px 18px;margin-top:16px;font-size:14px}\n\
";

/// The lanes of the picture of the session: a label, a chart and a scale.
const LANES: &str = "\
    .lanes{margin:12px 0 16px}\n\
    .lane{display:grid;grid-template-columns:232px minmax(0,1fr) 76px;column-gap:12px;margin-top:8px}\n\
    .lane{font-size:14px;line-height:18px}\n\
    .lanes+.lanes .lane{margin-top:12px}\n\
    .label span{font-size:13px;color:var(--soft)}\n\
    .of-great{border-bottom:3px solid var(--great);text-decoration:underline var(--gline)}\n\
    .of-mid{border-bottom:2px solid var(--mid)}\n\
    .of-goal{border-top:1.5px solid var(--ink)}\n\
    .label .of-great,.label .of-mid,.label .of-goal{color:var(--ink)}\n\
    .label .bad{color:var(--bad)}\n\
    .chart{position:relative;min-width:0}\n\
    .chart svg{position:absolute;left:0;top:0;width:100%;display:block}\n\
    .scale{position:relative;font-size:12px;color:var(--soft)}\n\
    .scale .top{position:absolute;top:-3px}\n\
    .scale .foot{position:absolute;bottom:-3px}\n\
    .scale .at-limit{position:absolute;top:35px;color:var(--ink);white-space:nowrap}\n\
    .modes span{display:block;line-height:12px;font-size:11px;color:var(--ink)}\n\
    .narrow{display:none;font-size:11px;color:var(--ink)}\n\
    .lanes .mark-lane,.lanes+.lanes .mark-lane{margin-top:0}\n\
    .mark-lane .chart,.touch-lane .chart{height:19px;border-bottom:1px solid var(--grid)}\n\
    .mark-lane .label b{color:var(--bad);font:600 12.5px/18px ui-monospace,\"DejaVu Sans Mono\",Menlo,Consolas,monospace}\n\
    .mark-lane .label .name{color:inherit;font:inherit;font-weight:600}\n\
    .mark-lane .scale{font-size:14px;color:var(--ink)}\n\
    .axis{height:18px}\n\
    .axis span{position:absolute;transform:translateX(-50%);font-size:12px;color:var(--soft);white-space:nowrap}\n\
    .below{margin:0 88px 0 244px;font-size:13px;color:var(--soft)}\n\
    .key{display:flex;flex-wrap:wrap;gap:4px 22px;list-style:none;margin:0;padding:0}\n\
    .key svg{margin-right:6px;vertical-align:-2px}\n\
";

/// What is drawn in the charts and above them.
const CHARTS: &str = "\
    .ground{position:absolute;width:0;height:0}\n\
    path{vector-effect:non-scaling-stroke;fill:none}\n\
    path.ticks{stroke:var(--line);stroke-dasharray:1 4}\n\
    path.hair{stroke:var(--bad);opacity:.25}\n\
    path.traf{fill:var(--traf)}\n\
    path.tline{stroke:var(--tline)}\n\
    path.great{fill:var(--great)}\n\
    path.gline{stroke:var(--gline)}\n\
    path.mid{stroke:var(--mid);stroke-width:1.5}\n\
    path.limit{stroke:var(--ink);stroke-dasharray:5 3}\n\
    path.row{stroke:var(--grid)}\n\
    path.state{fill:var(--state)}\n\
    path.goal{stroke:var(--ink);stroke-width:1.5}\n\
    path.half,path.clear{fill:var(--half)}\n\
    path.cuts{stroke:var(--bg);stroke-width:1.5}\n\
    path.blank{stroke:var(--grid)}\n\
    path.breaks{stroke:var(--bad);stroke-width:3}\n\
    path.contradiction{stroke:var(--bad)}\n\
    path.touches{stroke:var(--state);stroke-width:3}\n\
    path.middle{stroke:var(--mid);stroke-width:4}\n\
    path.tick{stroke:var(--mid);stroke-width:1.5}\n\
    path.lates{stroke:var(--bad);stroke-width:1.5}\n\
    .mark{position:absolute;top:1px;width:11px;height:16px;margin-left:-5.5px}\n\
    .mark::after{content:\"\";position:absolute;left:4px;width:3px;height:16px;background:var(--bad)}\n\
    .dot,.over,.circle{position:absolute;width:7px;height:7px;margin:-3.5px 0 0 -3.5px;border-radius:50%}\n\
    .dot,.over{background:var(--bad)}\n\
    .over{margin-top:0;border-radius:0;clip-path:polygon(50% 0,100% 100%,0 100%)}\n\
    .circle{top:9.5px;background:var(--bg);border:1px solid var(--bad)}\n\
    .mark:focus-visible,.dot:focus-visible,.over:focus-visible{outline:2px solid var(--link)}\n\
    .time{position:absolute;top:2px;height:14px;overflow:hidden;padding-left:3px;font-size:11px;line-height:14px}\n\
    .time b{color:var(--bg)}\n\
    .time b{display:inline-block;font-weight:400}\n\
";

/// The lists.
const LISTS: &str = "\
    #happened summary,#look summary{font-size:14px}\n\
    #happened summary span:first-child{display:inline-block;min-width:4em;margin-right:8px}\n\
    .lines{list-style:none;margin:6px 0 10px;padding:0;font-size:14px}\n\
    .lines li{display:grid;grid-template-columns:8em 8em minmax(0,1fr);column-gap:12px;overflow-wrap:anywhere}\n\
    .lines .query,.lines .counts{color:var(--soft)}\n\
    .lines .counts span{grid-column:3}\n\
    .lines .broken a{color:var(--bad)}\n\
    .lapses{font-size:14px;padding-left:1.2em}\n\
";

/// The tables.
const TABLES: &str = "\
    table{border-collapse:collapse;font-size:14px;line-height:1.4}\n\
    th{text-align:left;font-weight:400}\n\
    thead th{font-size:13px;color:var(--soft);border-bottom:1px solid var(--line)}\n\
    th,td{padding:4px 18px 4px 0;vertical-align:baseline}\n\
    .wide{overflow-x:auto;margin:12px 0}\n\
    .numbers td,.numbers thead th{text-align:right;white-space:nowrap}\n\
    .numbers thead th:first-child,.numbers .picture{text-align:left}\n\
    .numbers th,.numbers td{vertical-align:middle}\n\
    .numbers .picture svg{display:block;width:310px}\n\
    tfoot th,tfoot td{border-top:1px solid var(--line)}\n\
";

/// The section of breaks.
const BREAKS: &str = "\
    #breaks > p { max-width: 48em }\n\
    #breaks .soft { color: var(--soft) }\n\
    #breaks .reasons { border-collapse: collapse; font-size: 14px }\n\
    #breaks .reasons th, #breaks .reasons td { padding: 5px 16px 5px 0; text-align: left; vertical-align: top }\n\
    #breaks .reasons th { font-weight: normal }\n\
    #breaks .reasons thead th { color: var(--soft); font-size: 13px; border-bottom: 1px solid var(--line) }\n\
    #breaks .reasons tbody tr { border-bottom: 1px solid var(--grid) }\n\
    #breaks .reasons .count { text-align: right }\n\
    #breaks .reasons tbody th { white-space: nowrap }\n\
    #breaks .reasons td:last-child { max-width: 48em }\n\
    #breaks .reasons .soft { font-size: 13px }\n\
    #breaks .reasons th b, .break > summary b { color: var(--bad) }\n\
    .break { border-top: 1px solid var(--grid); padding: 5px 0; font-size: 14px }\n\
    .break summary { cursor: pointer }\n\
    .break-line { display: inline-grid; grid-template-columns: 8em 8em 16em 1fr; column-gap: 8px }\n\
    .break-line { width: calc(100% - 20px); vertical-align: top }\n\
    .break pre { margin: 8px 0 8px 16px; padding: 8px 12px; overflow-x: auto; background: var(--grid) }\n\
    .break > p, .break > details { margin: 8px 0 8px 16px }\n\
    .break figure { margin: 4px 0 0 -16px }\n\
    .break figcaption { position: absolute; width: 1px; height: 1px; overflow: hidden; clip-path: inset(50%) }\n\
    .wires { overflow-x: auto }\n\
    .replies { list-style: none; margin: 8px 0 8px 16px; padding: 0 }\n\
    .replies li { display: grid; grid-template-columns: 8em 13em 1fr; column-gap: 8px }\n\
    .replies .bytes { color: var(--soft); font: 12.5px ui-monospace, \"DejaVu Sans Mono\", Menlo, Consolas, monospace }\n\
    .replies .between { grid-column: 3; margin: 2px 0 6px; padding-left: 10px; border-left: 1px dashed var(--soft) }\n\
    .replies .between { color: var(--soft); font-size: 13px }\n\
";

/// The pictures of breaks.
const PICTURES: &str = "\
    .wires svg { display: block; fill: var(--ink) }\n\
    .wires svg { font: 12px ui-monospace, \"DejaVu Sans Mono\", Menlo, Consolas, monospace }\n\
    .wires .byte { fill: var(--grid); stroke: var(--soft) }\n\
    .wires .byte.pale { fill: var(--bg); stroke-dasharray: 3 2 }\n\
    .wires .byte.now { fill: var(--bad); stroke: var(--ink); stroke-width: 2.5 }\n\
    .wires text.now { fill: var(--bg); font-weight: bold }\n\
    .wires text.pale { fill: var(--soft) }\n\
    .wires .arrow { fill: var(--bad); stroke: var(--ink) }\n\
    .wires .line { fill: none; stroke: var(--soft) }\n\
    .wires .wire { stroke: var(--line) }\n\
    .wires .gap { fill: var(--bg) }\n\
    .wires line.passed { stroke: var(--bad); stroke-width: 2 }\n\
    .wires text.passed { fill: var(--bad); font-weight: bold }\n\
    .wires .limit { stroke: var(--ink); stroke-dasharray: 6 3 }\n\
    .wires .bold { font-weight: bold }\n\
    .wires .note { fill: var(--soft); font-size: 11px }\n\
    .wires .small { fill: var(--soft); font-size: 9px }\n\
    .wires .letter { font-size: 14px; font-weight: bold }\n\
";

/// The section of breaks on a narrow page, and printed.
const NARROW_BREAKS: &str = "\
    @media (max-width: 720px) {\n\
    .break-line { grid-template-columns: auto 1fr }\n\
    .break-line > :nth-child(n + 3) { grid-column: 1 / -1 }\n\
    .replies li { grid-template-columns: auto 1fr }\n\
    .replies li > :nth-child(n + 3) { grid-column: 1 / -1 }\n\
    #breaks .reasons th, #breaks .reasons td { padding-right: 10px }\n\
    #breaks .reasons tbody th { white-space: normal }\n\
    }\n\
    @media print {\n\
    .break, .reasons tr, .break svg { break-inside: avoid }\n\
    .wires { overflow: visible }\n\
    }\n\
";

/// Labels of the axis of time that have no room in a page that is not wide.
const FEWER_TICKS: &str = "\
    @media (max-width:1260px){.axis.long span:nth-child(even){display:none}}\n\
    @media (max-width:900px){.axis span:nth-child(even),.axis.long span:nth-child(4n+3){display:none}}\n\
";

/// A narrow page.
const NARROW: &str = "\
    @media (max-width:720px){\n\
    main{padding:14px 16px 32px}\n\
    h1{font-size:28px}\n\
    .lead{font-size:16px}\n\
    .facts{gap:8px 20px}\n\
    .lane{grid-template-columns:minmax(0,1fr) 58px;column-gap:8px}\n\
    .label{grid-column:1/-1}\n\
    .thin .label{display:none}\n\
    .narrow{display:inline}\n\
    .below{margin:0}\n\
    .lines li{grid-template-columns:auto 1fr;padding:3px 0}\n\
    .lines li span:last-child{grid-column:1/-1}\n\
    th,td{padding-right:12px}\n\
    .numbers .picture svg{width:130px}\n\
    }\n\
";

/// A printed page.
const PRINT: &str = "\
    @media print{:root{color-scheme:light;--bg:#ffffff;--ink:#1b1d20;--soft:#5c6168;--line:#d5d8dc;--grid:#e9ebee;--bad:#b00020;--link:#1d4e7c;--mid:#1d4e7c;--great:#d3dfea;--gline:#6f94b5;--state:#3d5a76;--half:#7a95af;--traf:#e6e9ec;--tline:#7d848c}\n\
    *{print-color-adjust:exact;-webkit-print-color-adjust:exact}\n\
    main{max-width:none;padding:0}\n\
    h2{break-after:avoid}\n\
    figure,details,li,tr{break-inside:avoid}\n\
    nav{display:none}}\n\
";

/// Puts the style of the page.
pub(crate) fn put_style(html: &mut Markup) {
    html.put_mark("<style>\n");
    html.put_mark(COLOURS);
    html.put_mark(TYPE);
    html.put_mark(HEAD);
    html.put_mark(LANES);
    html.put_mark(CHARTS);
    html.put_mark(LISTS);
    html.put_mark(TABLES);
    html.put_mark(BREAKS);
    html.put_mark(PICTURES);
    html.put_mark(NARROW_BREAKS);
    html.put_mark(FEWER_TICKS);
    html.put_mark(NARROW);
    html.put_mark(PRINT);
    html.put_mark("</style>\n");
}
