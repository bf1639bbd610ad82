//! The page's constants.

/// The file `page.css`, unchanged, with which a test compares it.
pub(crate) const CSS: &str = "\
:root {
  color-scheme: light dark;
  --bg: #fff; --fg: #1b1b1b; --dim: #595959; --line: #d5d5d5; --head: #f2f2f2; --link: #0b57d0;
  --yes: #0a6b2d; --no: #a4161a; --alert: #fff1ef; --warn: #fff4d6; --hint: #eef3fb; --hit: #dbe9ff;
  --error: #b3261e; --warning: #b26a00; --note: #5b7bab;
}
@media (prefers-color-scheme: dark) {
  :root {
    --bg: #161616; --fg: #e8e8e8; --dim: #a8a8a8; --line: #3d3d3d; --head: #232323; --link: #9cc2ff;
    --yes: #7ddc9a; --no: #ff9d94; --alert: #3a1b19; --warn: #33290f; --hint: #1b2430; --hit: #1e3355;
    --error: #ff8a80; --warning: #e0a33a; --note: #7e9cc7;
  }
}
* { box-sizing: border-box }
body { margin: 0; background: var(--bg); color: var(--fg); font: 16px/1.45 system-ui, sans-serif }
main { max-width: 64rem; margin: 0 auto; padding: 1rem }
h1 { font-size: 1.5rem; line-height: 1.25; margin: .25rem 0 1rem }
h2 { font-size: 1.15rem; margin: 2rem 0 .5rem }
h1, dd, td, th, li, p, caption { overflow-wrap: anywhere }
a { color: var(--link) }
code, .lines td:nth-child(4) { font: .9em/1.5 ui-monospace, monospace; white-space: pre-wrap }
.urls code, .agents td code, .agents thead code { word-break: break-all }
dl { margin: 0; display: grid; grid-template-columns: max-content minmax(0, 1fr); gap: .35rem 1rem }
dt { color: var(--dim) }
dd, p { margin: 0 }
dt:has(+ dd:empty), dd:empty { display: none }
footer { color: var(--dim); font-size: .875rem; margin-top: 1.5rem }
ul { margin: 0; padding-left: 1.1rem }
ul:empty { padding: 0 }
ul:empty::before { content: 'none' }
li + li { margin-top: .25rem }

/* Rows are laid out when they are about to be seen, so that a large table opens soon: those of lines in bodies of 500,
   since a link has to lead to its line, and others one by one. */
table, caption, thead, tbody { display: block }
caption { color: var(--dim); padding-bottom: .4rem; text-align: left }
tr { display: grid; border-bottom: 1px solid var(--line) }
.lines tbody { content-visibility: auto; contain-intrinsic-size: auto 1000rem }
.urls tbody tr, .agents tbody tr { content-visibility: auto; contain-intrinsic-size: auto 2rem }
th, td { text-align: left; padding: .25rem .5rem; min-width: 0 }
thead { background: var(--head) }
thead th { font-weight: 600 }
tbody th { font-weight: 400 }
td:only-child { grid-column: 1 / -1 }
.urls tr { grid-template-columns: minmax(0, 1fr) 11rem }
.lines tr { grid-template-columns: 4.75rem 6.5rem 7rem minmax(0, 1fr) }
.lines th { color: var(--dim) }
.lines tbody th { text-align: right; padding-right: .9rem; white-space: nowrap }
.agents { width: max-content; min-width: 100%; line-height: 1.5rem }
.agents code { line-height: inherit }
.agents tr { display: flex; border: 0 }
.agents tr, .agents tr > :first-child { box-shadow: inset 0 -1px var(--line) }
.agents th, .agents td { flex: 0 0 10rem }
.agents tr > :nth-child(3) { flex-basis: 4.5rem }
.agents tr > :nth-child(4), .agents tr > :nth-child(5) { flex-basis: 8rem }
.agents thead code { display: block; max-height: 9rem; overflow-y: auto }
.agents td code { display: none }
.agents tr > :first-child { position: sticky; left: 0; background: var(--bg) }
.agents tr > :first-child { border-right: 1px solid var(--line) }
.agents thead tr > :first-child { background: var(--head) }
.scroll { overflow-x: auto; border: 1px solid var(--line) }
.scroll caption { padding: .4rem .5rem; position: sticky; left: 0; width: max-content; max-width: 100% }

.allowed, .everything { color: var(--yes); font-weight: 600 }
.only-what-lines-allow { font-weight: 600 }
.mistake .allowed, .mistake .everything { color: inherit }
.denied, .nothing { color: var(--no); font-weight: 600 }
td a { font-weight: 400 }
.own { box-shadow: inset 4px 0 var(--link) }
.lines:not(.all) .other td, .ungrouped td { color: var(--dim) }
tr:has(> .agent) { border-top: 2px solid var(--dim) }
tr:has(> .agent) + tr:has(> .agent) { border-top: 0 }
.agent, .agent + td { font-weight: 600 }
b { display: inline-block; font-weight: 600; margin: 0 .5rem .35rem 0; padding: 0 .5rem 0 .85rem }
ul:has(> .error, > .warning, > .note) { list-style: none; padding: 0 }
li.error, li.warning, li.note { padding: .15rem .5rem .15rem .85rem }
.error { background: var(--alert); box-shadow: inset 4px 0 var(--error) }
.warning { background: var(--warn); box-shadow: inset 4px 0 var(--warning) }
.note { background: var(--hint); box-shadow: inset 4px 0 var(--note) }
.error td, .warning td, .note td { padding-left: .85rem }
tr:target { background: var(--hit) }

@media (max-width: 40rem) {
  main { padding: .75rem }
  table { font-size: .875rem }
  th, td { padding: .25rem .3rem }
  dl { grid-template-columns: minmax(0, 1fr); gap: 0 }
  dd { margin-bottom: .5rem }
  .urls tr { grid-template-columns: minmax(0, 1fr) 8.5rem }
  .lines tr { grid-template-columns: 3.5rem 5.75rem minmax(0, 1fr) }
  .lines tr > :nth-child(4) { grid-column: 2 / -1; padding-top: 0 }
  .lines td:nth-child(4):empty { display: none }
  .lines tbody th { padding-right: .5rem }
}

/* A crawler with what applies to it, and the verdicts below its name. */
@media (max-width: 40rem), print {
  .scroll { overflow: visible }
  .agents thead { display: none }
  .agents { width: auto; line-height: inherit }
  .agents tr, .agents th, .agents td { display: block; padding: .1rem .5rem }
  .agents tr { padding: .4rem 0 .5rem; border-bottom: 1px solid var(--line); box-shadow: none }
  .agents tr > :first-child { position: static; border: 0; box-shadow: none }
  .agents th code { font-weight: 600 }
  .agents td:nth-child(2)::before { content: 'Group: ' }
  .agents td:nth-child(3)::before { content: 'Rules: ' }
  .agents td:nth-child(4)::before { content: 'Crawl delay: ' }
  .agents td:nth-child(5)::before { content: 'May fetch: ' }
  .agents td:nth-child(-n+5)::before { color: var(--dim); font-weight: 400 }
  .agents td:empty { display: none }
  .agents td code { display: inline; margin-right: .5rem; color: var(--fg); font-weight: 400 }
}
@media print {
  :root {
    color-scheme: light;
    --bg: #fff; --fg: #000; --dim: #333; --line: #999; --head: #eee; --link: #000; --yes: #000; --no: #000;
    --alert: #fff; --warn: #fff; --hint: #fff; --hit: #fff; --error: #000; --warning: #000; --note: #000;
  }
  main { max-width: none; padding: 0 }
  .lines tbody, .urls tbody tr, .agents tbody tr { content-visibility: visible }
  tr, p { break-inside: avoid }
  h2, caption { break-after: avoid }
  .scroll { border: 0 }
  a { text-decoration: none }
}
";

/// The page's security policy permits its own style only, by the SHA-256 hash that a test computes again.
pub(crate) const POLICY: &str = "default-src 'none'; \
    style-src 'sha256-k/EBM0bpC+vjQlD8hNkM/aSa+3f4nmx2VANQova65PY='; \
    base-uri 'none'; form-action 'none'";
