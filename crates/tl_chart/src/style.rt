//! The colours and fonts of a chart.

/// The colours and fonts of a chart, light and dark.
pub const STYLE: &str = "<style>
svg{background:#fff;color:#0f172a}
text{font:11px monospace;fill:currentColor}
.n{fill:#64748b;text-anchor:end}
.m{text-anchor:middle}
.t{font:bold 13px sans-serif}
path{fill:none;stroke:currentColor;stroke-width:1.3}
circle{fill:currentColor}
.l{stroke:#94a3b8;stroke-width:1}
.h{fill:#f1f5f9;stroke:#94a3b8}
.o path{stroke-dasharray:4 3}
.o .s{stroke-dasharray:none}
.A{color:#1d4ed8}
.B{color:#7e22ce}
.C{color:#b45309}
.D{color:#15803d}
.E{color:#475569}
.X{color:#dc2626}
.X path{stroke-width:2.2}
.X text{font-weight:bold}
.r{fill:none;stroke:#0369a1;stroke-width:1.5}
.w{fill:#0369a1;stroke:#0369a1;stroke-width:1.5}
@media(prefers-color-scheme:dark){
svg{background:#0f172a;color:#e2e8f0}
.n{fill:#94a3b8}
.l{stroke:#64748b}
.h{fill:#1e293b;stroke:#64748b}
.A{color:#93c5fd}
.B{color:#d8b4fe}
.C{color:#fdba74}
.D{color:#86efac}
.E{color:#cbd5e1}
.X{color:#f87171}
.r{stroke:#7dd3fc}
.w{fill:#7dd3fc;stroke:#7dd3fc}
}
</style>
";
